// The numbers of kinds, and their counts.
ghost use Rattle.std.specs.Prelude.{◌≡◌};
ghost use Rattle.mapping.specs.Kinds.{kind_number, Numbered, count_low, count_high};

use crate::kind::{Kind, UnknownKind};

/// The kind that has this number in a record; none from 8 on.
impl TryFrom<u8> for Kind {
    type Error = UnknownKind;

    ghost try_from_gives = { Numbered };

    fn try_from(number: u8) -> Result<Kind, UnknownKind> {
        match number {
            0 => Ok(Kind::Unsigned8),
            1 => Ok(Kind::Signed8),
            2 => Ok(Kind::Unsigned16),
            3 => Ok(Kind::Signed16),
            4 => Ok(Kind::Unsigned12),
            5 => Ok(Kind::Signed12),
            6 => Ok(Kind::Unsigned14),
            7 => Ok(Kind::Signed14),
            _ => Err(UnknownKind(number)),
        }
    }
}

impl Kind {
    /// The number that stands for the kind in a record.
    // As it stands: a discriminant is read by `as`.
    pub fn number(self) -> u8
        ensures value { result ≡ kind_number self }
    {
        self as u8
    }

    /// The lowest and the highest count.
    pub fn counts(self) -> (i32, i32)
        ensures low { result.0 ≡ count_low self }
        ensures high { result.1 ≡ count_high self }
    {
        match self {
            Kind::Unsigned8 => (0, 255),
            Kind::Signed8 => (-128, 127),
            Kind::Unsigned16 => (0, 65_535),
            Kind::Signed16 => (-32_768, 32_767),
            Kind::Unsigned12 => (0, 4_095),
            Kind::Signed12 => (-2_048, 2_047),
            Kind::Unsigned14 => (0, 16_383),
            Kind::Signed14 => (-8_192, 8_191),
        }
    }
}

// Why a record is refused, and the number of each refusal.
ghost use Rattle.std.specs.Prelude.{◌≡◌};
ghost use Rattle.mapping.specs.Faults.{record_number, write_number};
ghost use Rattle.mapping.specs.declared.fault.RecordFault.TheVariants.{Short};

use crate::bits::BitFault;

/// Why a record is not accepted. Of several faults the one that stands first here is given.
#[derive(Clone, Copy, PartialEq, Eq, Debug)]
pub enum RecordFault {
    /// Fewer than 3 bytes.
    Short = 1,
    /// The format is not 1.
    Format = 2,
    /// There are no inputs.
    NoInput = 3,
    /// An absent input has a degree other than 0.
    AbsentDegree = 4,
    /// One of the two bits that must be zero is set.
    ZeroBits = 5,
    /// More than 64 coefficients.
    TooMany = 6,
    /// The length is not that of the header and the coefficients.
    Length = 7,
}

// `number` is one line for each enum: a trait would ask each for the same line again.
impl RecordFault {
    /// The number of the refusal.
    pub fn number(self) -> u8
        ensures value { result ≡ record_number self }
    {
        // By `as`, which reads the discriminant.
        self as u8
    }
}

/// Why a record is not written.
#[derive(Clone, Copy, PartialEq, Eq, Debug)]
pub enum WriteFault {
    /// The buffer is shorter than the record.
    SmallBuffer = 11,
}

impl WriteFault {
    /// The number of the refusal.
    pub fn number(self) -> u8
        ensures value { result ≡ write_number self }
    {
        self as u8
    }
}

/// Bits run out of a record only where it is shorter than its header.
impl From<BitFault> for RecordFault {
    ghost from_gives = { λ _ r. r ≡ Short };

    fn from(_fault: BitFault) -> RecordFault {
        RecordFault::Short
    }
}

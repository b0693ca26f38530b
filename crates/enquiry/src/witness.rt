// The witness: a point whose value is outside the register.
ghost use Rattle.std.specs.Prelude.{◌≡◌, Some};
ghost use Rattle.enquiry.specs.Printed.{denominator, fraction};

use std::fmt;

/// The number numerator/2^depth.
#[derive(Clone, Copy, PartialEq, Eq, Debug)]
pub struct Fraction {
    pub numerator: u16,
    pub depth: u8,
}

/// A corner of a cell: a fraction for each input.
#[derive(Clone, Copy, PartialEq, Eq, Debug)]
pub struct Witness {
    pub at: [Fraction; 3],
}

impl Fraction {
    /// 2^depth. No cell is deeper than 10; a depth past 63 counts as 63.
    fn denominator(&self) -> u64
        ensures value { result ≡ denominator self.now.depth }
    {
        1 << self.depth.min(63)
    }
}

/// Writes numerator and denominator in base ten.
impl fmt::Display for Fraction {
    ghost output = { λ x. Some (fraction x) };

    fn fmt<W: fmt::Write>(&self, f: &mut fmt::Formatter<W>) -> fmt::Result {
        write!(f, "{}/{}", self.numerator, self.denominator())
    }
}

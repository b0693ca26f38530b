// What an enquiry reports.
ghost use Rattle.std.specs.Prelude.{Some};
ghost use Rattle.enquiry.specs.Printed.{word};

use std::fmt;

/// What an enquiry has found so far.
#[derive(Clone, Copy, PartialEq, Eq, Debug)]
pub enum Verdict {
    /// Every value is in the register.
    Fits,
    /// Some value is outside it.
    Leaves,
    /// Neither is known.
    Open,
}

/// Writes the verdict's word.
impl fmt::Display for Verdict {
    ghost output = { λ v. Some (word v) };

    fn fmt<W: fmt::Write>(&self, f: &mut fmt::Formatter<W>) -> fmt::Result {
        f.write_str(match self {
            Verdict::Fits => "fits",
            Verdict::Leaves => "leaves",
            Verdict::Open => "open",
        })
    }
}

/// A range that holds every value, how far each end can be from a value that is reached, and the verdict.
// Not an answer beside a verdict: an answer is what a form says of one cell, and a caller reads all four by name.
#[derive(Clone, Copy, PartialEq, Eq, Debug)]
pub struct Report {
    pub low: i64,
    pub high: i64,
    pub slack: i64,
    pub verdict: Verdict,
}

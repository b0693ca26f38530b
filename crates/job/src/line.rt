//! The lines that the program prints.
use crate::denial::Denial;
use enquiry::report::{Report, Verdict};
use enquiry::witness::Witness;

/// One line of output.
#[derive(Clone, Copy, PartialEq, Eq, Debug)]
pub enum Line {
    /// A range with its slack and verdict, after opening and for a report.
    Range(Report),
    /// How many regions are open after a halving.
    Halved(usize),
    /// How many regions are open after a clearing.
    Cleared(usize),
    /// The two ends at a corner that was probed.
    Point(i64, i64),
    /// A refusal.
    No(Denial),
    /// The last line, where there is no witness.
    Verdict(Verdict),
    /// The last line, where there is one: the number of inputs, and the witness.
    // A number beside three fractions: a line is plain numbers, and owns no list.
    Leaves(u8, Witness),
}

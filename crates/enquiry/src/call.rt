// The calls on an enquiry, and the replies to them.
use crate::refusal::Refusal;
use crate::report::Report;

/// One call on an open enquiry. Regions are numbered from 0, inputs from 1.
#[derive(Clone, Copy, PartialEq, Eq, Debug)]
pub enum Call {
    /// Halves a region along an input.
    Halve(u8, u8),
    /// Clears a region.
    Clear(u8),
    /// Probes a corner of a region.
    Probe(u8, u8),
    /// Asks for a report.
    Report,
}

/// What a call answers.
#[derive(Clone, Copy, PartialEq, Eq, Debug)]
pub enum Reply {
    /// How many regions are open after a halving.
    Halved(usize),
    /// How many regions are open after a clearing.
    Cleared(usize),
    /// The low and the high end at the corner that was probed.
    Probed(i64, i64),
    /// A report.
    Reported(Report),
    /// The call was refused and changed nothing.
    Refused(Refusal),
}

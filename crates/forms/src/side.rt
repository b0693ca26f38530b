// The two sides of an enclosure, which differ only in how they round.

/// The low side rounds everything down and ends in the least number, the high side rounds up and ends in the greatest.
#[derive(Clone, Copy)]
pub(crate) enum Side {
    Low,
    High,
}

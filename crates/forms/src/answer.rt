// What a form answers.

/// An enclosure with whole ends, in steps, and its slack: how far each end can be from a value that is reached.
#[derive(Clone, Copy, PartialEq, Eq, Debug)]
pub struct Answer {
    pub low: i64,
    pub high: i64,
    pub slack: i64,
}

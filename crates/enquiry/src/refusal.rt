// Why a call is refused, and the number of each refusal.
ghost use Rattle.std.specs.Prelude.{◌≡◌};
ghost use Rattle.enquiry.specs.Refusals.{refusal_number};

/// Why a call is refused. Of several the one that stands first here is given.
#[derive(Clone, Copy, PartialEq, Eq, Debug)]
pub enum Refusal {
    /// There is no such region.
    NoRegion = 21,
    /// The mapping has no such input.
    NoInput = 22,
    /// The input is at its deepest.
    Deepest = 23,
    /// As many regions as there can be are open.
    Full = 24,
    /// The enclosure is not wholly in the register.
    NotWithin = 25,
    /// There is no such corner.
    NoCorner = 26,
}

impl Refusal {
    /// The number of the refusal.
    pub fn number(self) -> u8
        ensures value { result ≡ refusal_number self }
    {
        // One line, as each `number` of a refusal in mapping: a trait would ask for the same line again.
        self as u8
    }
}

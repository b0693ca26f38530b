//! A factor between 0 and 1, as a range of fractions over a power of two.

ghost use Rattle.std.specs.Prelude.{◌≡◌, ◌^◌, ◌≤◌, MatchOption};
ghost use Rattle.arith.specs.Product.{Proper};

/// A factor that runs from `low / 2^depth` to `high / 2^depth`, where `low <= high <= 2^depth` and `depth` is at most [`Factor::MAX_DEPTH`].
#[derive(Clone, Copy)]
pub struct Factor {
    pub(crate) low: u32,
    pub(crate) high: u32,
    pub(crate) depth: u32,
    ghost ordered: { low ≤ high },
    ghost within: { high ≤ 2 ^ depth },
    ghost shallow: { depth ≤ 15 },
}

impl Factor {
    /// The largest depth: 15 bits of numerator leave room for 47 bits of what is multiplied.
    pub const MAX_DEPTH: u32 = 15;

    /// The factor with these numbers; none where `low` passes `high`, `high` passes `2^depth`, or `depth` passes the largest.
    pub fn new(low: u32, high: u32, depth: u32) -> Option<Factor>
        ensures value { MatchOption result (Proper low high depth → ⊥) (λ f. (f.low ≡ low) × (f.high ≡ high) × (f.depth ≡ depth)) }
    {
        if depth <= Self::MAX_DEPTH && high <= 1 << depth && low <= high {
            Some(Factor { low, high, depth })
        } else {
            None
        }
    }

    /// The factor of the one number `at / 2^depth`; none where `at` passes `2^depth`, or `depth` passes the largest.
    pub fn point(at: u32, depth: u32) -> Option<Factor>
        ensures value { MatchOption result (Proper at at depth → ⊥) (λ f. (f.low ≡ at) × (f.high ≡ at) × (f.depth ≡ depth)) }
    {
        Factor::new(at, at, depth)
    }

    /// The low end's numerator.
    pub fn low(self) -> u32
        ensures value { result ≡ self.low }
    {
        self.low
    }

    /// The high end's numerator.
    pub fn high(self) -> u32
        ensures value { result ≡ self.high }
    {
        self.high
    }

    /// The power of two under both numerators.
    pub fn depth(self) -> u32
        ensures value { result ≡ self.depth }
    {
        self.depth
    }
}

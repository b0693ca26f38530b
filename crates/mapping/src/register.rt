// What a mapping says of itself: its register, and where its coefficients stand.
ghost use Rattle.std.specs.Prelude.{◌≡◌, slice_index};
ghost use Rattle.mapping.specs.Terms.{terms, flat, exponents};
ghost use Rattle.mapping.specs.Registers.{register_low, register_high, Blank};

use crate::kind::Kind;
use crate::mapping::{MOST_TERMS, Mapping};
use crate::terms::count_terms;

/// The lowest and the highest value that a register holds, both included, in steps.
#[derive(Clone, Copy, PartialEq, Eq, Debug)]
pub struct Register {
    pub low: i64,
    pub high: i64,
}

impl Mapping {
    /// What a new place holds: one input of degree 0, and zeros.
    pub fn new() -> Mapping
        ensures value { Blank result }
    {
        Mapping {
            inputs: 1,
            degrees: [0; 3],
            kind: Kind::Unsigned8,
            shift: 0,
            coefficients: [0; MOST_TERMS],
        }
    }

    /// How many coefficients there are.
    pub fn terms(&self) -> usize
        ensures value { result ≡ terms self.now.degrees }
    {
        count_terms(self.degrees)
    }

    /// The exponents of inputs 1, 2 and 3 in the term whose coefficient stands at `index`.
    pub fn exponents(&self, index: usize) -> [usize; 3]
        ensures value { result ≡ exponents self.now.degrees index }
        ensures back { flat self.now.degrees (slice_index result 0) (slice_index result 1) (slice_index result 2) ≡ index }
    {
        let [_, second, third] = self.degrees;
        let row = usize::from(third) + 1;
        let rows = usize::from(second) + 1;
        [index / row / rows, index / row % rows, index % row]
    }

    /// The register that takes the mapping's value.
    pub fn register(&self) -> Register
        ensures low { result.low ≡ register_low self.now }
        ensures high { result.high ≡ register_high self.now }
    {
        let (low, high) = self.kind.counts();
        let count: i64 = 1 << self.shift;
        Register {
            low: i64::from(low) * count,
            high: i64::from(high) * count,
        }
    }
}

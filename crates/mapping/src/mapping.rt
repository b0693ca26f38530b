// The mapping: a polynomial with whole-number coefficients, and the register that takes its value.
ghost use Rattle.std.specs.Prelude.{◌≡◌, ℕ, ◌^◌, ◌<◌, ◌≤◌, length, pos, slice_index, slice_index_or};
ghost use Rattle.std.specs.Int.Signed.{mag};
ghost use Rattle.mapping.specs.Terms.{terms};

use crate::kind::Kind;

/// The most coefficients that a mapping has.
pub const MOST_TERMS: usize = 64;

/// A mapping of one to three inputs.
// Numbers beside fixed arrays: there is no heap, and the invariant says what stands in the places that are not used.
#[derive(Clone, Copy, PartialEq, Eq, Debug)]
pub struct Mapping {
    /// How many inputs there are, 1 to 3.
    pub inputs: u8,
    /// The degree of each input, 0 to 7.
    pub degrees: [u8; 3],
    pub kind: Kind,
    /// Counts are worth 2^shift steps; 0 to 15.
    pub shift: u8,
    /// In steps.
    pub coefficients: [i32; MOST_TERMS],
    ghost some: { 1 ≤ inputs },
    ghost few: { inputs ≤ 3 },
    ghost three: { length degrees ≡ 3 },
    ghost low: { (v : ℕ) → v < 3 → slice_index degrees v ≤ 7 },
    ghost absent: { (v : ℕ) → inputs ≤ v → v < 3 → slice_index degrees v ≡ 0 },
    ghost small: { terms degrees ≤ 64 },
    ghost fine: { shift ≤ 15 },
    ghost table: { length coefficients ≡ 64 },
    ghost narrow: { (k : ℕ) → mag (slice_index_or coefficients k (pos 0)) < 2 ^ 31 },
    ghost unused: { (k : ℕ) → terms degrees ≤ k → slice_index_or coefficients k (pos 0) ≡ pos 0 },
}

// The slack of the Bernstein form.
ghost use Rattle.std.specs.Prelude.{◌≡◌, ◌^◌, ◌≤◌, pos, ◌≤ℤ◌};
ghost use Rattle.forms.specs.Bernstein.{bernstein};
ghost use Rattle.forms.specs.Tables.{loss};

use crate::sums::{BY_PAIRS, share, weighed_sizes};
use arith::Power;
use mapping::cell::Cell;
use mapping::mapping::Mapping;
use std::num::NonZeroU64;

/// What an input of degree `n` and depth `d` adds to the slack: one half for each halving of each number, and how far its bends lead away,
/// which are the `sum` of |a| · i(i - 1) over all coefficients a, with i the input's exponent. A degree of 0 adds nothing.
fn loss(n: u8, d: u8, sum: u64) -> i64
    requires low { n ≤ 7 }
    requires shallow { d ≤ 10 }
    requires small { sum ≤ 2 ^ 43 }
    ensures value { result ≡ loss n d (pos sum) }
    ensures least { pos 0 ≤ℤ result }
    ensures most { result ≤ℤ pos (2 ^ 44) }
{
    // The limits are asked for: degree and depth are plain numbers, as a mapping and a region's row hold them.
    let degree = u64::from(n);
    let depth = u64::from(d);
    let halvings = degree * depth;
    match NonZeroU64::new((2 * degree) << (2 * depth)) {
        None => 0,
        Some(divisor) => share(halvings, Power(1)) + share(sum, divisor),
    }
}

/// How far the ends of the enclosure may lie from values of the mapping on the cell.
pub(crate) fn slack(m: &Mapping, c: &Cell) -> i64
    ensures value { result ≡ (bernstein m.now c.now).slack }
{
    let [n1, n2, n3] = m.degrees;
    let [first, second, third] = c.shape.parts;
    let [x, y, z] = weighed_sizes(m, &BY_PAIRS);
    1 + (loss(n1, first.depth, x) + (loss(n2, second.depth, y) + loss(n3, third.depth, z)))
}

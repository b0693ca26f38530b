//! The product of an enclosure by a factor.

ghost use Rattle.std.specs.Prelude.{◌≡◌};
ghost use Rattle.arith.specs.Product.{low_times, high_times, Tame, Laws};

use crate::factor::Factor;

/// The ends of the enclosure from `low` to `high`, times a factor, each rounded outward. The ends are at most 2^47 in size.
/// Each end of the answer comes from its own alone, so that crossed ends have an answer too.
// Two numbers and a pair of them, and no type of their own: crossed ends are no enclosure.
pub fn times(low: i64, high: i64, by: Factor) -> (i64, i64)
    requires low { Tame low }
    requires high { Tame high }
    ensures low { result.0 ≡ low_times low by.low by.high by.depth }
    ensures high { result.1 ≡ high_times high by.low by.high by.depth }
    ensures laws { Laws by.low by.high by.depth }
{
    (low_end(low, by), high_end(high, by))
}

/// The low end: the smaller product, rounded down. It is the product by the high numerator where the end is negative.
fn low_end(low: i64, by: Factor) -> i64
    requires { Tame low }
    ensures value { result ≡ low_times low by.low by.high by.depth }
    ensures laws { Laws by.low by.high by.depth }
{
    // Both are read before the choice, so that nothing waits for a load.
    let (least, most) = (i64::from(by.low), i64::from(by.high));
    let numerator = if low < 0 { most } else { least };
    low * numerator >> by.depth
}

/// The high end: minus the low end of the negated enclosure.
fn high_end(high: i64, by: Factor) -> i64
    requires { Tame high }
    ensures { result ≡ high_times high by.low by.high by.depth }
{
    -low_end(-high, by)
}

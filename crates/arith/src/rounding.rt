//! Quotients of signed numbers by positive ones, rounded down or up. Every call has an answer that fits.

ghost use Rattle.std.specs.Prelude.{◌≡◌, ℕ, ◌%◌, ◌^◌, ◌≤◌, Decides, unsigned_abs};
ghost use Rattle.std.specs.NonZero.{non_zero_u64_get};
ghost use Rattle.std.proofs.Common.{pow_pos};
ghost use Rattle.arith.specs.Rounding.{quot_down, quot_up};

use std::num::NonZeroU64;

/// A quotient rounded down, and whether nothing was cut off.
#[derive(Clone, Copy, PartialEq, Eq, Debug)]
pub struct Quotient {
    pub down: i64,
    pub whole: bool,
}

/// A positive number that is divided by.
pub trait Divisor: Copy {
    ghost number: { Self → ℕ };

    /// `z` divided by the number.
    fn divide(self, z: i64) -> Quotient
        ensures down { result.down ≡ quot_down z (number self) }
        ensures whole { Decides result.whole (unsigned_abs z % number self ≡ 0) };

    ghost positive: { (d : Self) → 1 ≤ number d };
}

/// `z` divided by a number, rounded down.
pub fn down_by<D: Divisor>(z: i64, by: D) -> i64
    ensures value { result ≡ quot_down z (D.Divisor.number by) }
{
    by.divide(z).down
}

/// `z` divided by a number, rounded up.
pub fn up_by<D: Divisor>(z: i64, by: D) -> i64
    ensures value { result ≡ quot_up z (D.Divisor.number by) }
{
    between(z, by).1
}

/// `z` divided by a number, rounded down and rounded up: the second is one more where something was cut off.
pub fn between<D: Divisor>(z: i64, by: D) -> (i64, i64)
    ensures down { result.0 ≡ quot_down z (D.Divisor.number by) }
    ensures up { result.1 ≡ quot_up z (D.Divisor.number by) }
{
    let Quotient { down, whole } = by.divide(z);
    if whole {
        (down, down)
    } else {
        (down, down + 1)
    }
}

/// A power of two, by its exponent. It may pass 64 bits: what is left of a number then is 0 or -1 rounded down, 0 or 1 rounded up.
#[derive(Clone, Copy, PartialEq, Eq, Debug)]
pub struct Power(pub u32);

impl Divisor for Power {
    ghost number = { λ p. 2 ^ p.0 };

    ghost positive = { λ p. pow_pos p.0 };

    fn divide(self, z: i64) -> Quotient {
        let Power(d) = self;
        Quotient {
            down: z >> d.min(63),
            // 0 is a multiple of every power, and has only 64 zeros to count.
            whole: z == 0 || d <= z.unsigned_abs().trailing_zeros(),
        }
    }
}

impl Divisor for NonZeroU64 {
    ghost number = { non_zero_u64_get };

    ghost positive = { λ m. m.ok };

    /// Of a negative `z`, `!z` is `-z - 1`, which turns the division's rounding toward 0 into rounding down; it leaves one less than the
    /// divisor over where nothing is cut off.
    fn divide(self, z: i64) -> Quotient {
        // By `as`, which is shown to lose nothing: no `From` leads from signed numbers to unsigned ones, or back.
        if z < 0 {
            let size = !z as u64;
            Quotient {
                down: !((size / self) as i64),
                whole: size % self == self.get() - 1,
            }
        } else {
            let size = z as u64;
            Quotient {
                down: (size / self) as i64,
                whole: size % self == 0,
            }
        }
    }
}

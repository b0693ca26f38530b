// A table of enclosures, and how the nested form works off one input of it.
ghost use Rattle.std.specs.Prelude.{◌≡◌, ℕ, ◌+◌, ◌*◌, ◌-◌, ◌^◌, ◌<◌, ◌≤◌, length, pos, slice_index_or};
ghost use Rattle.forms.specs.Worked.{low_of, high_of, worked, Small};

use arith::{Factor, times};
use mapping::mapping::MOST_TERMS;

/// Enclosures, one for each combination of exponents of the inputs that are not worked off yet; the last input's exponent runs fastest.
// Low and high ends stand in an array each, as plain numbers.
#[derive(Clone, Copy)]
pub(crate) struct Table {
    pub(crate) low: [i64; MOST_TERMS],
    pub(crate) high: [i64; MOST_TERMS],
    ghost lows: { length low ≡ 64 },
    ghost highs: { length high ≡ 64 },
}

impl Table {
    /// Row `t` of the table for each `t` below `rows`, worked off into place `t`: rows are `degree + 1` long, so that no later row reads
    /// that place. Numbers of at most 2^40 in size leave room for every product and sum.
    pub(crate) fn work_off(&mut self, rows: usize, degree: usize, by: Factor)
        requires room { rows * (degree + 1) ≤ 64 }
        requires degree { degree ≤ 7 }
        requires low { Small (2 ^ 40) (rows * (degree + 1)) self.old.low }
        requires high { Small (2 ^ 40) (rows * (degree + 1)) self.old.high }
        ensures low { (t : ℕ) → t < rows → slice_index_or self.new.low t (pos 0) ≡ worked (low_of by) degree self.old.low (t * (degree + 1)) }
        ensures high { (t : ℕ) → t < rows → slice_index_or self.new.high t (pos 0) ≡ worked (high_of by) degree self.old.high (t * (degree + 1)) }
    {
        // The room and the degree's limit are asked for, since a table is a plain array. A row of one number is worked off as it stands.
        if degree == 0 {
            return;
        }
        // By index: rows are read from the arrays that their ends are written to.
        for t in 0..rows {
            let start = t * (degree + 1);
            let end = start + degree;
            let lows = &self.low;
            let highs = &self.high;
            let (low, high) = horner(&lows[start..=end], &highs[start..=end], by);
            self.low[t] = low;
            self.high[t] = high;
        }
    }
}

/// A row of low ends and one of high ends, by Horner's rule.
fn horner(lows: &[i64], highs: &[i64], by: Factor) -> (i64, i64)
    requires some { 1 ≤ length lows.now }
    requires few { length lows.now ≤ 8 }
    requires alike { length highs.now ≡ length lows.now }
    requires low { Small (2 ^ 40) (length lows.now) lows.now }
    requires high { Small (2 ^ 40) (length lows.now) highs.now }
    ensures low { result.0 ≡ worked (low_of by) (length lows.now - 1) lows.now 0 }
    ensures high { result.1 ≡ worked (high_of by) (length lows.now - 1) highs.now 0 }
{
    let last = lows.len() - 1;
    let mut low = lows[last];
    let mut high = highs[last];
    for (x, y) in lows[..last].iter().rev().zip(highs[..last].iter().rev()) {
        let (l, h) = times(low, high, by);
        low = l + *x;
        high = h + *y;
    }
    (low, high)
}

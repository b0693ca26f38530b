// De Casteljau's halving of a row, every mean rounded down. A row of degree N has N + 1 numbers, at the places 0 to N of an array. The
// degree is known to the compiler, so that a row can stay in registers from the first digit to the last. Its limit, and the size of
// the numbers, stand in each contract: a row is a plain array of eight, in no type of its own.
ghost use Rattle.std.specs.Prelude.{◌≡◌, ℕ, ◌+◌, ◌<◌, ◌≤◌};
ghost use Rattle.forms.specs.Arrays.{numbers, Holds};
ghost use Rattle.forms.specs.Halving.{mean_down, kept, deep};
ghost use Rattle.forms.specs.Worked.{Within};
ghost use Rattle.forms.specs.Works.{summable, EachWithin};

use mapping::cell::Part;

/// Half the sum of `x` and `y`, rounded down.
fn mean(x: i64, y: i64) -> i64
    requires left { Within summable x }
    requires right { Within summable y }
    ensures value { result ≡ mean_down x y }
    ensures size { Within summable result }
{
    (x + y) >> 1
}

/// One round: each of the first `count` numbers becomes the mean of itself and its right neighbour.
fn round(mut row: [i64; 8], count: usize) -> [i64; 8]
    requires count { count < 8 }
    requires size { EachWithin summable row }
    ensures new { (k : ℕ) → k < count → numbers result k ≡ mean_down (numbers row k) (numbers row (k + 1)) }
    ensures rest { (k : ℕ) → count ≤ k → numbers result k ≡ numbers row k }
    ensures size { EachWithin summable result }
{
    // By index: the right neighbour is read while the place is written.
    for k in 0..count {
        row[k] = mean(row[k], row[k + 1]);
    }
    row
}

/// The half of a row that the digit names: 0 the lower one, 1 the upper one. After t rounds the lower half's number at t
/// stands first, and what N rounds leave in place is the upper half.
fn halve<const N: usize>(row: [i64; 8], digit: u16) -> [i64; 8]
    requires degree { N < 8 }
    requires size { EachWithin summable row }
    ensures value { Holds N result (kept mean_down N digit (numbers row)) }
    ensures size { EachWithin summable result }
{
    // The digit is a number: it is cut out of the place of a part, and there it stands for a half.
    let mut lower = row;
    let mut upper = row;
    // By index: the number of a round says how many places it has and where its first number goes.
    for t in 0..N {
        let next = round(upper, N - t);
        upper = next;
        lower[t + 1] = upper[0];
    }
    if digit == 0 { lower } else { upper }
}

/// The row on the part: a halving for each digit of its place, the most significant first.
pub(crate) fn halve_to<const N: usize>(mut row: [i64; 8], part: Part) -> [i64; 8]
    requires degree { N < 8 }
    requires shallow { part.depth ≤ 10 }
    requires size { EachWithin summable row }
    ensures value { Holds N result (deep (kept mean_down N) part.depth part.place (numbers row)) }
    ensures size { EachWithin summable result }
{
    // The depth's limit is asked for: a part is plain numbers, as a region's row holds it.
    for t in (0..part.depth).rev() {
        let digit = (part.place >> t) % 2;
        let half = halve::<N>(row, digit);
        row = half;
    }
    row
}

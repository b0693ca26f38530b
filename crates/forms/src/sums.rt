// Sums of the sizes of a mapping's coefficients, weighed by exponents, and their shares. Both forms take their slack from them.
ghost use Rattle.std.specs.Prelude.{◌≡◌, ℕ, ◌+◌, ◌*◌, ◌^◌, ◌<◌, ◌≤◌, length, pos, ◌≤ℤ◌, slice_index, slice_index_or, unsigned_abs};
ghost use Rattle.arith.specs.Rounding.{quot_up};
ghost use Rattle.forms.specs.Totals.{total, row_sum, row_weighed, weighed_sizes};

use crate::wide::degrees;
use arith::{Divisor, up_by};
use mapping::mapping::{MOST_TERMS, Mapping};

/// What each exponent counts for: the exponent 0 nothing, and no exponent more than 64.
#[derive(Clone, Copy)]
pub(crate) struct Weights {
    each: [u64; 8],
    ghost eight: { length each ≡ 8 },
    ghost none: { slice_index each 0 ≡ 0 },
    ghost light: { (i : ℕ) → slice_index each i ≤ 64 },
}

/// An exponent counts for itself.
pub(crate) const BY_EXPONENT: Weights = Weights {
    each: [0, 1, 2, 3, 4, 5, 6, 7],
};

/// An exponent i counts for i(i - 1).
pub(crate) const BY_PAIRS: Weights = Weights {
    each: [0, 0, 2, 6, 12, 20, 30, 42],
};

/// Puts the coefficients' sizes into an array of zeros.
// Not by `array::from_fn`, which goes over all 64 places however few coefficients there are; and an array that it returned would be copied.
fn put_sizes(m: &Mapping, sizes: &mut [u64; MOST_TERMS])
    requires { (k : ℕ) → slice_index sizes.old k ≡ 0 }
    ensures value { (k : ℕ) → slice_index sizes.new k ≡ unsigned_abs (slice_index_or m.now.coefficients k (pos 0)) }
{
    for (k, a) in m.coefficients[..m.terms()].iter().enumerate() {
        sizes[k] = u64::from(a.unsigned_abs());
    }
}

/// For each input the sum, over all coefficients, of the weight of the input's exponent times the coefficient's size.
pub(crate) fn weighed_sizes(m: &Mapping, weights: &Weights) -> [u64; 3]
    ensures value { (v : ℕ) → v < 3 → slice_index result v ≡ weighed_sizes weights.now.each m.now v }
    ensures most { (v : ℕ) → v < 3 → slice_index result v ≤ 2 ^ 43 }
{
    let mut sizes = [0; MOST_TERMS];
    put_sizes(m, &mut sizes);
    let [first, second, third] = degrees(m);
    let rows = first + 1;
    let of_third = add_rows(&mut sizes, rows * (second + 1), third, weights);
    let of_second = add_rows(&mut sizes, rows, second, weights);
    let of_first = add_rows(&mut sizes, 1, first, weights);
    [of_first, of_second, of_third]
}

/// Row `t` of the numbers for each `t` below `rows`, added up into place `t`: rows are `degree + 1` long, so that no later row reads that
/// place. Returns the sum of all rows, each number times the weight of its place in the row.
fn add_rows(numbers: &mut [u64; MOST_TERMS], rows: usize, degree: usize, weights: &Weights) -> u64
    requires room { rows * (degree + 1) ≤ 64 }
    requires degree { degree ≤ 7 }
    requires small { (k : ℕ) → k < rows * (degree + 1) → slice_index numbers.old k ≤ 2 ^ 37 }
    ensures sums { (t : ℕ) → t < rows → slice_index numbers.new t ≡ row_sum degree numbers.old (t * (degree + 1)) }
    ensures value { result ≡ total rows (λ t. row_weighed weights.now.each degree numbers.old (t * (degree + 1))) }
{
    // The room and the degree's limit are asked for, since a table is a plain array. A row of one number is its own sum, and its weight is 0.
    if degree == 0 {
        return 0;
    }
    let mut all = 0;
    // By index: rows are read from the array that their sums are written to.
    for t in 0..rows {
        let start = t * (degree + 1);
        let (sum, weighed) = add_row(&numbers[start..=start + degree], weights);
        numbers[t] = sum;
        all += weighed;
    }
    all
}

/// The sum of a row's numbers, and the same with each number times the weight of its place.
fn add_row(row: &[u64], weights: &Weights) -> (u64, u64)
    requires few { length row.now ≤ 8 }
    requires small { (k : ℕ) → k < length row.now → slice_index row.now k ≤ 2 ^ 37 }
    ensures sum { result.0 ≡ total (length row.now) (λ k. slice_index row.now k) }
    ensures weighed { result.1 ≡ total (length row.now) (λ k. slice_index weights.now.each k * slice_index row.now k) }
{
    let mut sum = 0;
    let mut weighed = 0;
    for (x, weight) in row.iter().zip(&weights.each) {
        sum += *x;
        weighed += *weight * *x;
    }
    (sum, weighed)
}

/// What a sum gives to a slack: the sum over a divisor, rounded up.
pub(crate) fn share<D: Divisor>(sum: u64, by: D) -> i64
    requires { sum ≤ 2 ^ 43 }
    ensures value { result ≡ quot_up (pos sum) (D.Divisor.number by) }
    ensures least { pos 0 ≤ℤ result }
    ensures most { result ≤ℤ pos (2 ^ 43) }
{
    // The bound of a sum is asked for: a sum is a plain number. By `as`, which is shown to lose nothing: `try_from` would add a refusal that
    // cannot come.
    up_by(sum as i64, by)
}

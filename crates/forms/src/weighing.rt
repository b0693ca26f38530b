// From the coefficients of a row to the numerators of its Bernstein coefficients. A row of degree N has N + 1 numbers, at the places
// 0 to N of an array. A row is a plain array, so each function asks for the degree's limit.
ghost use Rattle.std.specs.Prelude.{◌≡◌, ℕ, ◌<◌, ◌≤◌};
ghost use Rattle.forms.specs.Arrays.{numbers, Holds};
ghost use Rattle.forms.specs.Worked.{Within};
ghost use Rattle.forms.specs.Works.{weighed_row, EachWithin, grown, Weighable};

use crate::binomials::weight;

/// The sum of the numbers, each times what it counts for at `j`.
fn numerator<const N: usize>(row: &[i64; 8], j: usize) -> i64
    requires degree { N < 8 }
    requires place { j ≤ N }
    requires size { Weighable N row.now }
    ensures value { result ≡ weighed_row N (numbers row.now) j }
    ensures size { (b : ℕ) → EachWithin b row.now → Within (grown N b) result }
{
    let mut sum = 0;
    for (i, x) in row[..=N].iter().enumerate() {
        sum += x * i64::from(weight(N, j, i));
    }
    sum
}

/// The numerators of a row.
pub(crate) fn weigh<const N: usize>(row: [i64; 8]) -> [i64; 8]
    requires degree { N < 8 }
    requires size { Weighable N row }
    ensures value { Holds N result (weighed_row N (numbers row)) }
    ensures size { (b : ℕ) → EachWithin b row → EachWithin (grown N b) result }
{
    let mut sums = [0; 8];
    // By index: only the first N + 1 of the eight places are written.
    for j in 0..N + 1 {
        sums[j] = numerator::<N>(&row, j);
    }
    sums
}

// Factorials and binomial coefficients, for degrees of at most 7.
ghost use Rattle.std.specs.Prelude.{◌≡◌, ◌<◌, ◌≤◌};
ghost use Rattle.forms.specs.Choose.{factorial, choose, weight};

// A degree is a plain number, as a mapping holds it: each function asks for its limit.

/// One more than the highest degree.
const DEGREES: usize = 8;

const FACTORIALS: [u32; DEGREES] = [1, 1, 2, 6, 24, 120, 720, 5040];

/// "n over i" stands in row `n` at `i`.
#[rattlefmt::skip]
const BINOMIALS: [[u32; DEGREES]; DEGREES] = [
    [1, 0, 0, 0, 0, 0, 0, 0],
    [1, 1, 0, 0, 0, 0, 0, 0],
    [1, 2, 1, 0, 0, 0, 0, 0],
    [1, 3, 3, 1, 0, 0, 0, 0],
    [1, 4, 6, 4, 1, 0, 0, 0],
    [1, 5, 10, 10, 5, 1, 0, 0],
    [1, 6, 15, 20, 15, 6, 1, 0],
    [1, 7, 21, 35, 35, 21, 7, 1],
];

pub(crate) fn factorial(n: usize) -> u32
    requires { n < 8 }
    ensures value { result ≡ factorial n }
    ensures small { result ≤ 5040 }
{
    FACTORIALS[n]
}

/// The binomial coefficient "n over i": 0 where `i` is above `n`.
pub(crate) fn choose(n: usize, i: usize) -> u32
    requires upper { n < 8 }
    requires lower { i < 8 }
    ensures value { result ≡ choose n i }
    ensures small { result ≤ 35 }
{
    BINOMIALS[n][i]
}

/// What a coefficient with exponent `i` counts for in the Bernstein coefficient at `j`, times n!.
pub(crate) fn weight(n: usize, j: usize, i: usize) -> u32
    requires degree { n < 8 }
    requires place { j ≤ n }
    requires exponent { i ≤ n }
    ensures value { result ≡ weight n j i }
    ensures small { result ≤ 5040 }
{
    choose(j, i) * (factorial(i) * factorial(n - i))
}

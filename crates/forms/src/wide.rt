// A mapping's degrees and coefficients, as the numbers that the forms count with.
ghost use Rattle.std.specs.Prelude.{◌≡◌, ℕ, length};
ghost use Rattle.forms.specs.Arrays.{numbers};
ghost use Rattle.forms.specs.Works.{Zeros};

use mapping::mapping::{MOST_TERMS, Mapping};

/// The degree of each input, as wide as an index.
pub(crate) fn degrees(m: &Mapping) -> [usize; 3]
    ensures value { result ≡ m.now.degrees }
{
    m.degrees.map(usize::from)
}

/// Puts the coefficients into a table of zeros.
pub(crate) fn widen(m: &Mapping, table: &mut [i64; MOST_TERMS])
    requires { Zeros table.old }
    ensures value { (k : ℕ) → numbers table.new k ≡ numbers m.now.coefficients k }
    ensures long { length table.new ≡ 64 }
{
    // The length is said too, since a caller that lends an array out of a struct does not know that it keeps it. By index: `map` would make
    // the table a second time, and after `iter_mut` a proof knows no number of a table.
    for (k, a) in m.coefficients[..m.terms()].iter().enumerate() {
        table[k] = i64::from(*a);
    }
}

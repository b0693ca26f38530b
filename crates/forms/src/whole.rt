// The Bernstein coefficients of a mapping on the whole box. Tables are plain arrays, so each function says of its own what the sizes of the
// numbers are.
ghost use Rattle.std.specs.Prelude.{◌≡◌, ◌*◌};
ghost use Rattle.std.specs.NonZero.{non_zero_u64_get};
ghost use Rattle.mapping.specs.Values.{degree, coefficient};
ghost use Rattle.forms.specs.Arrays.{Fills};
ghost use Rattle.forms.specs.Choose.{factorial};
ghost use Rattle.forms.specs.Stages.{held, on_box};
ghost use Rattle.forms.specs.declared.side.Side.TheVariants.{Low, High};
ghost use Rattle.forms.specs.Tables.{numerator};
ghost use Rattle.forms.specs.Works.{summable, EachWithin, Zeros};

use crate::binomials::factorial;
use crate::grid::along;
use crate::wide::{degrees, widen};
use crate::work::Weigh;
use arith::between;
use mapping::mapping::{MOST_TERMS, Mapping};
use std::num::NonZeroU64;

/// The denominator of all Bernstein coefficients on the box: the product of the three factorials of the degrees.
fn denominator(m: &Mapping) -> NonZeroU64
    ensures value { non_zero_u64_get result ≡ factorial (degree m.now 0) * (factorial (degree m.now 1) * factorial (degree m.now 2)) }
{
    let [n1, n2, n3] = degrees(m);
    let product = u64::from(factorial(n1)) * (u64::from(factorial(n2)) * u64::from(factorial(n3)));
    let Some(nonzero) = NonZeroU64::new(product) else {
        unreachable()
    };
    nonzero
}

/// Puts the numerators of the Bernstein coefficients into a table of zeros, input by input.
fn numerators(m: &Mapping, table: &mut [i64; MOST_TERMS])
    requires { Zeros table.old }
    ensures value { Fills m.now.degrees table.new (numerator (degree m.now 0) (degree m.now 1) (degree m.now 2) (coefficient m.now)) }
    ensures size { EachWithin summable table.new }
{
    let [n1, n2, n3] = degrees(m);
    widen(m, table);
    along(table, n1, (n2 + 1) * (n3 + 1), Weigh);
    along(table, n2, (n3 + 1) * (n1 + 1), Weigh);
    along(table, n3, (n1 + 1) * (n2 + 1), Weigh);
}

/// Puts into one table of zeros the Bernstein coefficients on the box, rounded down, and into the other one minus the Bernstein
/// coefficients, which are rounded up; both in the order of the coefficients.
pub(crate) fn first_tables(
    m: &Mapping,
    low: &mut [i64; MOST_TERMS],
    mirrored: &mut [i64; MOST_TERMS],
)
    requires low { Zeros low.old }
    requires high { Zeros mirrored.old }
    ensures low { Fills m.now.degrees low.new (held Low (on_box Low m.now)) }
    ensures high { Fills m.now.degrees mirrored.new (held High (on_box High m.now)) }
    ensures sizes { EachWithin summable low.new × EachWithin summable mirrored.new }
{
    let denominator = denominator(m);
    numerators(m, low);
    // By index: each number is divided in its place, and after `iter_mut` a proof knows no number of a table.
    for index in 0..m.terms() {
        let (down, up) = between(low[index], denominator);
        low[index] = down;
        mirrored[index] = -up;
    }
}

// The Bernstein form: Bernstein coefficients on the whole box, halved down to the cell, with every rounding outward. Tables are plain arrays, so
// each function says of its own what the sizes of the numbers are.
ghost use Rattle.std.specs.Prelude.{◌≡◌, ◌-◌, ◌<◌, length};
ghost use Rattle.mapping.specs.Values.{degree};
ghost use Rattle.forms.specs.Arrays.{numbers, grid, Fills};
ghost use Rattle.forms.specs.Bernstein.{bernstein};
ghost use Rattle.forms.specs.Sides.{extreme};
ghost use Rattle.forms.specs.Stages.{end, held, on_box, on_cell};
ghost use Rattle.forms.specs.declared.side.Side.TheVariants.{Low};
ghost use Rattle.forms.specs.Tables.{least_of};
ghost use Rattle.forms.specs.Worked.{Within};
ghost use Rattle.forms.specs.Works.{summable, EachWithin};
ghost use Rattle.forms.specs.BernsteinSound.{bernstein_rules};

use crate::answer::Answer;
use crate::form::Form;
use crate::grid::along;
use crate::side::Side;
use crate::slack::slack;
use crate::whole::first_tables;
use crate::wide::degrees;
use crate::work::Halve;
use mapping::cell::Cell;
use mapping::mapping::{MOST_TERMS, Mapping};

/// Encloses by the least and the greatest Bernstein coefficient on the cell.
#[derive(Clone, Copy)]
pub struct Bernstein;

/// Halves a table on the box down to the cell: by all digits of the place of input 1, then of input 2, then of input 3.
fn halve_table(table: &mut [i64; MOST_TERMS], m: &Mapping, c: &Cell)
    requires { EachWithin summable table.old }
    ensures value { Fills m.now.degrees table.new (on_cell Low m.now c.now (grid m.now.degrees table.old)) }
    ensures size { EachWithin summable table.new }
{
    let [n1, n2, n3] = degrees(m);
    let [part1, part2, part3] = c.shape.parts;
    along(table, n1, (n2 + 1) * (n3 + 1), Halve(part1));
    along(table, n2, (n3 + 1) * (n1 + 1), Halve(part2));
    along(table, n3, (n1 + 1) * (n2 + 1), Halve(part3));
}

/// The least number of a slice that is not empty.
fn least(xs: &[i64]) -> i64
    requires { 0 < length xs.now }
    ensures value { result ≡ extreme Low (length xs.now - 1) (numbers xs.now) }
{
    let mut end = xs[0];
    for x in &xs[1..] {
        end = end.min(*x);
    }
    end
}

/// The least number on the cell of a table on the box, which is used up.
fn least_on(table: &mut [i64; MOST_TERMS], m: &Mapping, c: &Cell) -> i64
    requires { EachWithin summable table.old }
    ensures value { result ≡ least_of (degree m.now 0) (degree m.now 1) (degree m.now 2) (on_cell Low m.now c.now (grid m.now.degrees table.old)) }
    ensures size { Within summable result }
{
    halve_table(table, m, c);
    least(&table[..m.terms()])
}

/// One end of the enclosure, from the table of its side, which is used up.
fn end(table: &mut [i64; MOST_TERMS], m: &Mapping, c: &Cell, side: Side) -> i64
    requires size { EachWithin summable table.old }
    requires table { Fills m.now.degrees table.old (held side (on_box side m.now)) }
    ensures value { result ≡ end side (bernstein m.now c.now) }
{
    let least = least_on(table, m, c);
    // The side is a value, since the definitions speak of both sides by it; here it only turns the sign.
    match side {
        Side::Low => least,
        Side::High => -least,
    }
}

impl Form for Bernstein {
    ghost meaning = { λ _. bernstein };

    ghost sound = { λ f. bernstein_rules };

    fn ask(&self, m: &Mapping, c: &Cell) -> Answer {
        // Two tables, one for each side: plain arrays, since there is no heap.
        let mut low = [0; MOST_TERMS];
        let mut mirrored = [0; MOST_TERMS];
        first_tables(m, &mut low, &mut mirrored);
        Answer {
            low: end(&mut low, m, c, Side::Low),
            high: end(&mut mirrored, m, c, Side::High),
            slack: slack(m, c),
        }
    }
}

// The nested form: each input worked off by Horner's rule, with enclosures for numbers.
ghost use Rattle.std.specs.Prelude.{◌≡◌, ◌+◌, ◌%◌, ◌^◌, ◌<◌, ◌≤◌};
ghost use Rattle.forms.specs.Nested.{nested_low, nested_high, nested, nested_slack, corner_ends, AtCorner};
ghost use Rattle.forms.specs.Worked.{factors};
ghost use Rattle.forms.specs.NestedRules.{nested_rules};

use crate::answer::Answer;
use crate::form::Form;
use crate::sums::{BY_EXPONENT, share, weighed_sizes};
use crate::table::Table;
use crate::wide::{degrees, widen};
use arith::{Factor, Power};
use mapping::cell::{Cell, Part};
use mapping::mapping::{MOST_TERMS, Mapping};

/// The form that works off inputs 3, 2 and 1 in turn, with one rounding outward for each product.
#[derive(Clone, Copy)]
pub struct Nested;

impl Form for Nested {
    ghost meaning = { λ _. nested };

    ghost sound = { λ f. nested_rules };

    fn ask(&self, m: &Mapping, c: &Cell) -> Answer {
        let [first, second, third] = c.shape.parts;
        let by = [
            factor(first, 0, 1),
            factor(second, 0, 1),
            factor(third, 0, 1),
        ];
        let (low, high) = ends(m, by);
        Answer {
            low,
            high,
            slack: slack(m, c),
        }
    }
}

/// Low and high end at one corner of the cell: bit `v` of `corner` takes input `v + 1` to its upper end. Higher bits count nothing.
pub fn corner(m: &Mapping, c: &Cell, corner: u8) -> (i64, i64)
    ensures value { result ≡ corner_ends m.now c.now.shape corner }
    ensures encloses { AtCorner m.now c.now.shape corner result }
{
    // A corner is a number of three bits, as a job names it; each bit is added to a place.
    let [first, second, third] = c.shape.parts;
    let by = [
        point(first, corner),
        point(second, corner >> 1),
        point(third, corner >> 2),
    ];
    ends(m, by)
}

/// The factor of an input at a corner: its part's lower end, or its upper one where `bits` is odd.
fn point(part: Part, bits: u8) -> Factor
    requires shallow { part.depth ≤ 10 }
    requires inside { part.place < 2 ^ part.depth }
    ensures low { result.low ≡ part.place + bits % 2 }
    ensures high { result.high ≡ part.place + bits % 2 }
    ensures depth { result.depth ≡ part.depth }
{
    // The limits are asked for: a part is plain numbers, as a region's row holds it.
    let upper = u32::from(bits % 2);
    factor(part, upper, upper)
}

/// The factor that runs from `from` to `to` past the part's place, over 2^depth.
fn factor(part: Part, from: u32, to: u32) -> Factor
    requires shallow { part.depth ≤ 10 }
    requires inside { part.place < 2 ^ part.depth }
    requires ordered { from ≤ to }
    requires within { to ≤ 1 }
    ensures low { result.low ≡ part.place + from }
    ensures high { result.high ≡ part.place + to }
    ensures depth { result.depth ≡ part.depth }
{
    // The limits are asked for, as in `point`.
    let place = u32::from(part.place);
    let Some(factor) = Factor::new(place + from, place + to, u32::from(part.depth)) else {
        unreachable()
    };
    factor
}

/// Low and high end over one factor for each input.
fn ends(m: &Mapping, by: [Factor; 3]) -> (i64, i64)
    ensures low { result.0 ≡ nested_low m.now (factors by) }
    ensures high { result.1 ≡ nested_high m.now (factors by) }
{
    let [first, second, third] = degrees(m);
    let rows = first + 1;
    // Each coefficient is an enclosure of itself. Both arrays are filled in their places: a table that a function returned would be copied.
    let mut table = Table {
        low: [0; MOST_TERMS],
        high: [0; MOST_TERMS],
    };
    widen(m, &mut table.low);
    widen(m, &mut table.high);
    table.work_off(rows * (second + 1), third, by[2]);
    table.work_off(rows, second, by[1]);
    table.work_off(1, first, by[0]);
    (table.low[0], table.high[0])
}

/// The slack: 2 for each product, and each input's share: its moment over 2^depth, rounded up.
fn slack(m: &Mapping, c: &Cell) -> i64
    ensures value { result ≡ nested_slack m.now c.now.shape }
{
    // By `as`: no `From` leads from a length to i64, which holds every length.
    let products = m.terms() as i64 - 1;
    let [x, y, z] = weighed_sizes(m, &BY_EXPONENT);
    let [first, second, third] = c.shape.parts.map(|part| Power(u32::from(part.depth)));
    2 * products + (share(x, first) + share(y, second) + share(z, third))
}

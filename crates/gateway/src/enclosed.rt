// A form asked over a list of cells.
ghost use Rattle.std.specs.Prelude.{◌≡◌, ℕ, ◌+◌, ◌*◌, ◌<◌, ◌≤◌, All, Decides, MatchOption, length, pos, slice_index_or};
ghost use Rattle.mapping.specs.Cells.{Valid};
ghost use Rattle.mapping.specs.Packed.{unpacked};
ghost use Rattle.gateway.specs.Enclosing.{shape_in, Listed, Cut, Holds, AnswersOver, Behind, Enclosed};
ghost use Rattle.gateway.specs.Refused.{enclose_told};

use crate::choice::Choice;
use crate::fault::EncloseFault;
use forms::answer::Answer;
use forms::form::Form;
use mapping::cell::{Cell, Shape};
use mapping::mapping::Mapping;
use mapping::packed::PACKED;
use mapping::record::read;

/// What is written for a cell: low, high and slack.
const ANSWER: usize = 3;

/// Whether nine bytes are a cell, that is, within the limits.
fn is_cell(bytes: &[u8; PACKED]) -> bool
    ensures value { Decides result (Valid (unpacked bytes.now)) }
{
    Cell::new(Shape::from(*bytes)).is_some()
}

/// Whether each nine bytes are a cell.
fn are_cells(pieces: &[[u8; PACKED]]) -> bool
    ensures value { Decides result (All (λ bytes. Valid (unpacked bytes)) pieces.now) }
{
    pieces.iter().all(is_cell)
}

/// The cells of a list; none unless it has whole cells, each within the limits.
fn cells_of(list: &[u8]) -> Option<&[[u8; PACKED]]>
    ensures value { MatchOption result (Listed list.now → ⊥) (λ cells. Cut list.now cells.now) }
{
    let (pieces, []) = list.as_chunks::<PACKED>() else {
        return None;
    };
    are_cells(pieces).then_some(pieces)
}

/// Writes low, high and slack from place `at` on.
fn put(ends: &mut [i64], at: usize, answer: Answer)
    requires { at + 2 < length ends.old }
    ensures holds { Holds answer ends.new at }
    ensures size { length ends.new ≡ length ends.old }
    ensures before { (j : ℕ) → j < at → slice_index_or ends.new j (pos 0) ≡ slice_index_or ends.old j (pos 0) }
    ensures behind { (j : ℕ) → at + 2 < j → slice_index_or ends.new j (pos 0) ≡ slice_index_or ends.old j (pos 0) }
{
    // By place, as in `fill`.
    ends[at] = answer.low;
    ends[at + 1] = answer.high;
    ends[at + 2] = answer.slack;
}

/// Writes the answers over all cells to the first places of `ends`.
fn fill<F: Form>(form: &F, m: &Mapping, cells: &[[u8; PACKED]], ends: &mut [i64])
    requires valid { (k : ℕ) → k < length cells.now → Valid (shape_in cells.now k) }
    requires room { 3 * length cells.now ≤ length ends.old }
    ensures answers { AnswersOver (F.Form.meaning form.now m.now) (shape_in cells.now) (length cells.now) ends.new }
    ensures behind { Behind (3 * length cells.now) ends.old ends.new }
{
    // By place: once pieces of `ends` were lent out to be written, no more than its length would be known.
    for (k, bytes) in cells.iter().enumerate() {
        let Some(cell) = Cell::new(Shape::from(*bytes)) else {
            unreachable()
        };
        put(ends, ANSWER * k, form.ask(m, &cell));
    }
}

/// Asks a form over each cell of a list, and writes low, high and slack of each to `ends`, one after the other. At a refusal no number of
/// `ends` has changed.
fn enclose(form: u8, bytes: &[u8], list: &[u8], ends: &mut [i64]) -> Result<(), EncloseFault>
    ensures value { Enclosed form bytes.now list.now ends.old (enclose_told result) ends.new }
{
    let mut mapping = Mapping::new();
    read(bytes, &mut mapping)?;
    // The form comes as its number, since a refusal of the record goes before one of the number.
    let choice = Choice::try_from(form)?;
    let cells = cells_of(list).ok_or(EncloseFault::NoCell)?;
    if ends.len() < ANSWER * cells.len() {
        return Err(EncloseFault::NoRoom);
    }
    fill(&choice, &mapping, cells, ends);
    Ok(())
}

/// The same for C: 0, or the number of the first refusal, and then no number of `ends` has changed.
#[unsafe(no_mangle)]
pub extern "C" fn rangecheck_enclose(form: u8, bytes: &[u8], list: &[u8], ends: &mut [i64]) -> u32
    ensures value { Enclosed form bytes.now list.now ends.old result ends.new }
{
    match enclose(form, bytes, list, ends) {
        Ok(()) => 0,
        Err(fault) => u32::from(fault.number()),
    }
}

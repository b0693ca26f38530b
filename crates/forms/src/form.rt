// The enclosure form, as code above sees it.
ghost use Rattle.std.specs.Prelude.{◌≡◌};
ghost use Rattle.forms.specs.declared.answer.Answer.{Answer};
ghost use Rattle.forms.specs.Rules.{Rules};
ghost use Rattle.mapping.specs.declared.mapping.Mapping.{Mapping};
ghost use Rattle.mapping.specs.declared.cell.Cell.{Cell};

use crate::answer::Answer;
use mapping::cell::Cell;
use mapping::mapping::Mapping;

/// Encloses the values of a mapping over a cell. A form refuses nothing and changes nothing, and gives the
/// same question the same answer: its meaning.
pub trait Form {
    ghost meaning: { Self → Mapping → Cell → Answer };

    /// The enclosure of the mapping's values over the cell, and the slack.
    // A mapping and a cell apart: an enquiry keeps one mapping for all its cells.
    fn ask(&self, m: &Mapping, c: &Cell) -> Answer
        ensures value { result ≡ meaning self.now m.now c.now };

    /// Whoever adds a form shows its rules, for every mapping and every cell. Code above relies on nothing else.
    ghost sound: { (f : Self) → Rules (meaning f) };
}

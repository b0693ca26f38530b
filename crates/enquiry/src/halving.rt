// Halving a region.
ghost use Rattle.std.specs.Prelude.{◌≡◌, ◌<◌, length};
ghost use Rattle.mapping.specs.Cells.{Halves};
ghost use Rattle.mapping.specs.Listed.{first_listed, outcome};
ghost use Rattle.enquiry.specs.States.{region_at};
ghost use Rattle.enquiry.specs.Steps.{shape_of, tightened, halve_refusals, halved, halve};
ghost use Rattle.enquiry.specs.Views.{view, enquiry_of};

use crate::enquiry::Enquiry;
use crate::refusal::Refusal;
use crate::shapes::cell_of;
use crate::table::{MOST_REGIONS, Row};
use forms::form::Form;
use mapping::cell::{Cell, DEEPEST};

impl<F: Form> Enquiry<F> {
    /// Whether the region can be halved, or the refusal.
    // A region and an input apart: a call's bytes name them, and each is refused for itself.
    fn may_halve(&self, region: u8, input: u8) -> Result<(), Refusal>
        ensures value { result ≡ outcome tt (first_listed (halve_refusals self.now.mapping (view self.now) region input)) }
    {
        let row = self.find(region)?;
        if input < 1 || input > self.mapping.inputs {
            return Err(Refusal::NoInput);
        }
        let cell = cell_of(row.shape);
        if cell.shape.parts[usize::from(input) - 1].depth >= DEEPEST {
            return Err(Refusal::Deepest);
        }
        if self.table.len() >= MOST_REGIONS {
            return Err(Refusal::Full);
        }
        Ok(())
    }

    /// A part of a region: what the form answers over the cell, or the region's own ends where they are tighter.
    fn part(&self, row: Row, cell: &Cell) -> Row
        ensures value { result ≡ tightened row cell.now.shape (F.Form.meaning self.now.form self.now.mapping cell.now) }
    {
        let answer = self.form.ask(&self.mapping, cell);
        row.tightened(cell.shape, answer)
    }

    /// Puts the lower half in the region's place and the upper half at the end.
    fn split(&mut self, region: u8, input: u8)
        requires there { region < length self.old.table }
        requires splits { Halves (shape_of (region_at (view self.old) region)) input }
        requires room { length self.old.table < 64 }
        ensures after { self.new ≡ enquiry_of self.old.form self.old.mapping (halved (F.Form.meaning self.old.form) self.old.mapping (view self.old) region input) }
    {
        let Some(row) = self.table.get(usize::from(region)) else {
            unreachable()
        };
        let Some(halves) = cell_of(row.shape).halves(input) else {
            unreachable()
        };
        let (lower, upper) = halves;
        let first = self.part(row, &lower);
        let second = self.part(row, &upper);
        self.table.put(usize::from(region), first);
        self.table.push(second);
    }

    /// Halves a region along an input, counted from 1: the lower half takes the region's number, and the upper
    /// half goes to the end. Answers how many regions are open. Refuses 21, 22, 23 and 24.
    #[tactic(auto, unfolding(crate::specs::Steps::halve))]
    pub fn halve(&mut self, region: u8, input: u8) -> Result<usize, Refusal>
        ensures value { result ≡ (halve (F.Form.meaning self.old.form) self.old.mapping (view self.old) region input).0 }
        ensures after { self.new ≡ enquiry_of self.old.form self.old.mapping (halve (F.Form.meaning self.old.form) self.old.mapping (view self.old) region input).1 }
    {
        self.may_halve(region, input)?;
        self.split(region, input);
        Ok(self.table.len())
    }
}

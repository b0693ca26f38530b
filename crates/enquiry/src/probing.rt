// Probing a corner of a region.
ghost use Rattle.std.specs.Prelude.{◌≡◌, ◌+◌, ◌%◌, ◌^◌, ◌<◌, ◌≤◌};
ghost use Rattle.mapping.specs.Listed.{first_listed, outcome};
ghost use Rattle.enquiry.specs.Corners.{witness_at};
ghost use Rattle.enquiry.specs.InRegister.{wholly_out};
ghost use Rattle.enquiry.specs.States.{region_at};
ghost use Rattle.enquiry.specs.Steps.{probe_refusals, first_witness, probe};
ghost use Rattle.enquiry.specs.Views.{view, enquiry_of};

use crate::enquiry::Enquiry;
use crate::fitting::wholly_out;
use crate::refusal::Refusal;
use crate::shapes::cell_of;
use crate::table::Row;
use crate::witness::{Fraction, Witness};
use forms::form::Form;
use forms::nested::corner as ends_at;
use mapping::cell::{Cell, Part};

impl Fraction {
    /// An end of a part: the lower one, or the upper one where `bits` is odd.
    fn end(part: Part, bits: u8) -> Fraction
        requires shallow { part.depth ≤ 10 }
        requires inside { part.place < 2 ^ part.depth }
        ensures numerator { result.numerator ≡ part.place + bits % 2 }
        ensures depth { result.depth ≡ part.depth }
    {
        // The limits are asked for: a part is plain numbers, as a region's row holds it.
        Fraction {
            numerator: part.place + u16::from(bits % 2),
            depth: part.depth,
        }
    }
}

impl Witness {
    /// A corner of the cell: it adds 1, 2 and 4 for inputs 1, 2 and 3 taken at their upper end.
    fn new(cell: &Cell, corner: u8) -> Witness
        ensures value { result ≡ witness_at cell.now.shape corner }
    {
        let [first, second, third] = cell.shape.parts;
        Witness {
            at: [
                Fraction::end(first, corner),
                Fraction::end(second, corner >> 1),
                Fraction::end(third, corner >> 2),
            ],
        }
    }
}

impl<F: Form> Enquiry<F> {
    /// The region that is to be probed, or the refusal.
    fn may_probe(&self, region: u8, corner: u8) -> Result<Row, Refusal>
        ensures value { result ≡ outcome (region_at (view self.now) region) (first_listed (probe_refusals self.now.mapping (view self.now) region corner)) }
    {
        let row = self.find(region)?;
        // A corner is a number of as many bits as there are inputs, as a job names it.
        if u32::from(corner) < 1 << self.mapping.inputs {
            Ok(row)
        } else {
            Err(Refusal::NoCorner)
        }
    }

    /// The witness there is, else the corner where its ends lie wholly outside the register.
    fn first_witness(&self, cell: &Cell, corner: u8, ends: (i64, i64)) -> Option<Witness>
        ensures value { result ≡ first_witness (wholly_out self.now.mapping ends.0 ends.1) self.now.witness (witness_at cell.now.shape corner) }
    {
        let found = wholly_out(&self.mapping, ends).then(|| Witness::new(cell, corner));
        self.witness.or(found)
    }

    /// Probes a corner of a region: answers the ends of the value there. Where they lie wholly outside the
    /// register and there is no witness, the corner becomes the witness. Refuses 21 and 26.
    #[tactic(auto, unfolding(crate::specs::Steps::probe))]
    pub fn probe(&mut self, region: u8, corner: u8) -> Result<(i64, i64), Refusal>
        ensures value { result ≡ (probe self.old.mapping (view self.old) region corner).0 }
        ensures after { self.new ≡ enquiry_of self.old.form self.old.mapping (probe self.old.mapping (view self.old) region corner).1 }
    {
        let row = self.may_probe(region, corner)?;
        let cell = cell_of(row.shape);
        let ends = ends_at(&self.mapping, &cell, corner);
        self.witness = self.first_witness(&cell, corner, ends);
        Ok(ends)
    }
}

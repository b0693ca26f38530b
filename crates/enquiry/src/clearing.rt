// Finding a region, and clearing one.
ghost use Rattle.std.specs.Prelude.{◌≡◌};
ghost use Rattle.mapping.specs.Listed.{first_listed, outcome};
ghost use Rattle.enquiry.specs.States.{region_at};
ghost use Rattle.enquiry.specs.Steps.{found, clear_refusals, clear};
ghost use Rattle.enquiry.specs.Views.{view, enquiry_of};

use crate::answers::join_on;
use crate::enquiry::Enquiry;
use crate::fitting::wholly_in;
use crate::refusal::Refusal;
use crate::table::Row;
use forms::form::Form;

impl<F: Form> Enquiry<F> {
    /// The region with this number; 21 where there is none.
    pub(crate) fn find(&self, region: u8) -> Result<Row, Refusal>
        ensures value { result ≡ found (view self.now) region }
    {
        self.table.get(usize::from(region)).ok_or(Refusal::NoRegion)
    }

    /// The region that is to be cleared, or the refusal.
    fn may_clear(&self, region: u8) -> Result<Row, Refusal>
        ensures value { result ≡ outcome (region_at (view self.now) region) (first_listed (clear_refusals self.now.mapping (view self.now) region)) }
    {
        let row = self.find(region)?;
        if wholly_in(&self.mapping, row.answer) {
            Ok(row)
        } else {
            Err(Refusal::NotWithin)
        }
    }

    /// Clears a region whose enclosure is wholly in the register: it leaves, and joins the cleared hull. The last
    /// region takes its number. Answers how many regions are open. Refuses 21 and 25.
    #[tactic(auto, unfolding(crate::specs::Steps::clear))]
    pub fn clear(&mut self, region: u8) -> Result<usize, Refusal>
        ensures value { result ≡ (clear self.old.mapping (view self.old) region).0 }
        ensures after { self.new ≡ enquiry_of self.old.form self.old.mapping (clear self.old.mapping (view self.old) region).1 }
    {
        let row = self.may_clear(region)?;
        self.cleared = join_on(self.cleared, row.answer);
        self.table.remove(usize::from(region));
        Ok(self.table.len())
    }
}

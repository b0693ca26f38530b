// The enquiry: opened on a mapping, reported on, and closed.
ghost use Rattle.std.specs.Prelude.{◌≡◌, ◌≤◌, List, length};
ghost use Rattle.enquiry.specs.Honest.{Honest, WitnessTrue};
ghost use Rattle.enquiry.specs.Runs.{after, reports};
ghost use Rattle.enquiry.specs.States.{opened};
ghost use Rattle.enquiry.specs.Steps.{verdict_on, report, close};
ghost use Rattle.enquiry.specs.Views.{view, enquiry_of};
ghost use Rattle.enquiry.specs.declared.call.Call.{Call};

use crate::answers::NO_ANSWER;
use crate::closed::Closed;
use crate::fitting::wholly_in;
use crate::report::{Report, Verdict};
use crate::table::{Row, Table};
use crate::witness::Witness;
use forms::answer::Answer;
use forms::form::Form;
use mapping::cell::Cell;
use mapping::mapping::Mapping;

/// A mapping under enquiry, with the form that encloses it, the open regions, the hull and the largest slack of
/// the cleared ones, and a witness.
#[derive(Drop)]
pub struct Enquiry<F: Form> {
    pub(crate) form: F,
    pub(crate) mapping: Mapping,
    pub(crate) table: Table,
    pub(crate) cleared: Option<Answer>,
    pub(crate) witness: Option<Witness>,
}

impl<F: Form> Enquiry<F> {
    /// Opens an enquiry. It refuses nothing: one region is open, the whole box with the form's answer.
    /// Every list of calls on it, refused ones included, has honest reports, and a witness that it ends with is
    /// outside the register.
    pub fn open(form: F, mapping: Mapping) -> Enquiry<F>
        ensures value { result ≡ enquiry_of form mapping (opened (F.Form.meaning form) mapping) }
        ensures honest { (calls : List Call) → Honest mapping (reports (F.Form.meaning form) mapping calls) }
        ensures witness { (calls : List Call) → WitnessTrue mapping (close mapping (after (F.Form.meaning form) mapping (opened (F.Form.meaning form) mapping) calls)) }
    {
        let cell = Cell::whole();
        let answer = form.ask(&mapping, &cell);
        let table = Table::new(Row {
            shape: cell.shape,
            answer,
        });
        Enquiry {
            form,
            mapping,
            table,
            cleared: None,
            witness: None,
        }
    }

    /// Reports the least low end, the greatest high end and the largest slack over all regions, open and
    /// cleared, and the verdict. It refuses nothing. At most 64 regions are open.
    #[tactic(auto, using(std::proofs::lemmas::Int::ints), unfolding(crate::specs::Steps::report, crate::specs::States::hull))]
    pub fn report(&self) -> Report
        ensures value { result ≡ report self.now.mapping (view self.now) }
        ensures room { length (view self.now).rows ≤ 64 }
    {
        let range = self.table.hull(self.cleared).unwrap_or(NO_ANSWER);
        Report {
            low: range.low,
            high: range.high,
            slack: range.slack,
            verdict: self.verdict(range),
        }
    }

    /// The verdict on a range: leaves where there is a witness, else fits where its ends are in the register.
    fn verdict(&self, range: Answer) -> Verdict
        ensures value { result ≡ verdict_on self.now.mapping range self.now.witness }
    {
        if self.witness.is_some() {
            Verdict::Leaves
        } else if wholly_in(&self.mapping, range) {
            Verdict::Fits
        } else {
            Verdict::Open
        }
    }
}

impl<F: Form + Drop> Enquiry<F> {
    /// Ends the enquiry: the report as it stands, and the witness if there is one.
    #[tactic(auto, unfolding(crate::specs::Steps::close))]
    pub fn close(self) -> Closed
        ensures value { result ≡ close self.mapping (view self) }
    {
        let report = self.report();
        match self.witness {
            None => Closed::Without(report),
            Some(witness) => Closed::With(report, witness),
        }
    }
}

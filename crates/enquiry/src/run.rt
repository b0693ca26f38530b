// A whole run: open, a list of calls, close.
ghost use Rattle.std.specs.Prelude.{◌≡◌, IfOk};
ghost use Rattle.enquiry.specs.Honest.{Honest, WitnessTrue};
ghost use Rattle.enquiry.specs.Transcripts.{Transcribed, seen_in};
ghost use Rattle.enquiry.specs.Runs.{reply};
ghost use Rattle.enquiry.specs.Views.{view, enquiry_of};

use crate::call::{Call, Reply};
use crate::closed::Closed;
use crate::enquiry::Enquiry;
use crate::report::Report;
use forms::form::Form;
use mapping::mapping::Mapping;
use std::alloc::{AllocError, Global};

/// What a run gave: the report at the opening, the reply to each call in their order, and the closed state.
#[derive(Drop)]
pub struct Transcript {
    pub opening: Report,
    pub replies: Vec<Reply>,
    pub closed: Closed,
}

impl<F: Form> Enquiry<F> {
    /// Takes one call and replies to it. A refused call changes nothing.
    #[tactic(auto, unfolding(crate::specs::Runs::reply))]
    pub fn answer(&mut self, call: Call) -> Reply
        ensures value { result ≡ (reply (F.Form.meaning self.old.form) self.old.mapping (view self.old) call).0 }
        ensures after { self.new ≡ enquiry_of self.old.form self.old.mapping (reply (F.Form.meaning self.old.form) self.old.mapping (view self.old) call).1 }
    {
        // By match: a call is what a job's bytes say, and comes as a value.
        match call {
            Call::Halve(region, input) => self
                .halve(region, input)
                .map_or_else(Reply::Refused, Reply::Halved),
            Call::Clear(region) => self
                .clear(region)
                .map_or_else(Reply::Refused, Reply::Cleared),
            Call::Probe(region, corner) => self
                .probe(region, corner)
                .map_or_else(Reply::Refused, |(low, high)| Reply::Probed(low, high)),
            Call::Report => Reply::Reported(self.report()),
        }
    }
}

/// Runs a list of calls from the opening to the close. The reports, the closing one too, are honest, whichever
/// calls are refused, and a witness is outside the register. Fails only for want of memory.
pub fn run<F: Form + Drop>(
    form: F,
    mapping: Mapping,
    calls: &[Call],
    heap: Global,
) -> Result<Transcript, AllocError>
    ensures value { IfOk result (Transcribed (F.Form.meaning form) mapping calls.now) }
    ensures honest { IfOk result (λ t. Honest mapping (seen_in t)) }
    ensures witness { IfOk result (λ t. WitnessTrue mapping t.closed) }
{
    let mut enquiry = Enquiry::open(form, mapping);
    let opening = enquiry.report();
    let mut replies = Vec::new(heap);
    for call in calls {
        replies.push(enquiry.answer(*call))?;
    }
    Ok(Transcript {
        opening,
        replies,
        closed: enquiry.close(),
    })
}

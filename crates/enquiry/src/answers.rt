// Hulls of answers, and the tighter of two.
ghost use Rattle.std.specs.Prelude.{◌≡◌};
ghost use Rattle.enquiry.specs.States.{join, join_on};
ghost use Rattle.enquiry.specs.Steps.{tightened};

use crate::table::Row;
use forms::answer::Answer;
use mapping::cell::Shape;

/// What stands where there is no enclosure.
pub(crate) const NO_ANSWER: Answer = Answer {
    low: 0,
    high: 0,
    slack: 0,
};

impl Row {
    /// A part of the region: the tighter end of its own and the form's on each side, and the form's slack.
    pub(crate) fn tightened(self, shape: Shape, part: Answer) -> Row
        ensures value { result ≡ tightened self shape part }
    {
        Row {
            shape,
            answer: Answer {
                low: self.answer.low.max(part.low),
                high: self.answer.high.min(part.high),
                slack: part.slack,
            },
        }
    }
}

/// The hull of two enclosures, with the larger slack.
fn hull_of(first: Answer, second: Answer) -> Answer
    ensures value { result ≡ join first second }
{
    Answer {
        low: first.low.min(second.low),
        high: first.high.max(second.high),
        slack: first.slack.max(second.slack),
    }
}

/// The hull of what there may be and one more enclosure, with the larger slack.
pub(crate) fn join_on(hull: Option<Answer>, answer: Answer) -> Option<Answer>
    ensures value { result ≡ join_on hull answer }
{
    Some(hull.map_or(answer, |before| hull_of(before, answer)))
}

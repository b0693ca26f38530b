// A pair of any two forms is again a form.
ghost use Rattle.std.specs.Prelude.{◌≡◌};
ghost use Rattle.std.specs.Int.{int_max, int_min};
ghost use Rattle.forms.specs.Pairs.{both};
ghost use Rattle.forms.specs.Tighter.{pair_rules};

use crate::answer::Answer;
use crate::form::Form;
use mapping::cell::Cell;
use mapping::mapping::Mapping;

/// Two forms that are both asked: the tighter end and the smaller slack count.
#[derive(Clone, Copy)]
pub struct Pair<A, B> {
    pub first: A,
    pub second: B,
}

impl<A: Form, B: Form> Form for Pair<A, B> {
    ghost meaning = { λ p. both (A.Form.meaning p.first) (B.Form.meaning p.second) };

    ghost sound = { λ p. pair_rules (A.Form.meaning p.first) (B.Form.meaning p.second) (A.Form.sound p.first) (B.Form.sound p.second) };

    fn ask(&self, m: &Mapping, c: &Cell) -> Answer {
        tighter(self.first.ask(m, c), self.second.ask(m, c))
    }
}

/// The tighter ends and the smaller slack of two answers.
fn tighter(first: Answer, second: Answer) -> Answer
    ensures low { result.low ≡ int_max first.low second.low }
    ensures high { result.high ≡ int_min first.high second.high }
    ensures slack { result.slack ≡ int_min first.slack second.slack }
{
    Answer {
        low: first.low.max(second.low),
        high: first.high.min(second.high),
        slack: first.slack.min(second.slack),
    }
}

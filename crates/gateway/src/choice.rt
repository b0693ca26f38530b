// The forms that a caller can name.
ghost use Rattle.std.specs.Prelude.{◌≡◌};
ghost use Rattle.std.specs.Option.{ok_or};
ghost use Rattle.gateway.specs.Enclosing.{meant, form_of};
ghost use Rattle.gateway.specs.Choices.{meant_rules};
ghost use Rattle.gateway.specs.declared.fault.EncloseFault.TheVariants.{NoForm};

use crate::fault::EncloseFault;
use forms::answer::Answer;
use forms::bernstein::Bernstein;
use forms::form::Form;
use forms::nested::Nested;
use forms::pair::Pair;
use mapping::cell::Cell;
use mapping::mapping::Mapping;

/// A form, by its number: 0, 1 and 2.
#[derive(Clone, Copy, PartialEq, Eq, Debug)]
pub enum Choice {
    Nested,
    Bernstein,
    /// The pair of Bernstein and nested form, as in a job.
    Both,
}

impl TryFrom<u8> for Choice {
    type Error = EncloseFault;

    ghost try_from_gives = { λ number choice. choice ≡ ok_or (form_of number) NoForm };

    fn try_from(number: u8) -> Result<Choice, EncloseFault> {
        match number {
            0 => Ok(Choice::Nested),
            1 => Ok(Choice::Bernstein),
            2 => Ok(Choice::Both),
            _ => Err(EncloseFault::NoForm),
        }
    }
}

impl Form for Choice {
    ghost meaning = { meant };

    ghost sound = { meant_rules };

    fn ask(&self, m: &Mapping, c: &Cell) -> Answer {
        // By match: a number picks the form, and nothing is boxed for it.
        match self {
            Choice::Nested => Nested.ask(m, c),
            Choice::Bernstein => Bernstein.ask(m, c),
            Choice::Both => Pair {
                first: Bernstein,
                second: Nested,
            }
            .ask(m, c),
        }
    }
}

//! Why a line says no.
ghost use Rattle.std.specs.Prelude.{◌≡◌, Some, decimal};
ghost use Rattle.job.specs.Denials.{denial_number};
ghost use Rattle.job.specs.declared.denial.Denial.TheVariants.{Load, Refused};

use crate::fault::LoadFault;
use enquiry::refusal::Refusal;
use std::fmt;

/// What is answered by a refusal.
#[derive(Clone, Copy, PartialEq, Eq, Debug)]
pub enum Denial {
    /// An input from which no mapping could be loaded, under the fault's own number.
    Load(LoadFault),
    /// A call that was refused, under the refusal's own number.
    Refused(Refusal),
    /// 43: an unknown code, or a last call cut short.
    NoCall,
}

impl Denial {
    /// The number of the refusal.
    pub fn number(self) -> u8
        ensures value { result ≡ denial_number self }
    {
        // A match, and no discriminants: two cases carry what has a number of its own.
        match self {
            Denial::Load(fault) => fault.number(),
            Denial::Refused(refusal) => refusal.number(),
            Denial::NoCall => 43,
        }
    }
}

impl From<LoadFault> for Denial {
    ghost from_gives = { λ f d. d ≡ Load f };

    fn from(fault: LoadFault) -> Denial {
        Denial::Load(fault)
    }
}

impl From<Refusal> for Denial {
    ghost from_gives = { λ f d. d ≡ Refused f };

    fn from(refusal: Refusal) -> Denial {
        Denial::Refused(refusal)
    }
}

/// The number in base ten.
impl fmt::Display for Denial {
    ghost output = { λ d. Some (decimal (denial_number d)) };

    fn fmt<W: fmt::Write>(&self, f: &mut fmt::Formatter<W>) -> fmt::Result {
        write!(f, "{}", self.number())
    }
}

// Why a call is refused, and the number that C is told.
ghost use Rattle.std.specs.Prelude.{◌≡◌};
ghost use Rattle.gateway.specs.Refused.{enclose_number, deliver_number};
ghost use Rattle.gateway.specs.declared.fault.DeliverFault.TheVariants.{NoMemory};
ghost use Rattle.gateway.specs.declared.fault.EncloseFault.TheVariants.{Record};

use mapping::fault::RecordFault;
use std::alloc::AllocError;

/// Why a form is not asked. Of several faults the one that stands first here is given.
#[derive(Clone, Copy, PartialEq, Eq, Debug)]
pub enum EncloseFault {
    /// The record is refused, under the record's own number.
    Record(RecordFault),
    /// 71: there is no such form.
    NoForm,
    /// 72: the list ends within a cell, or a cell is outside the limits.
    NoCell,
    /// 73: there is no room for all answers.
    NoRoom,
}

impl EncloseFault {
    /// The number of the refusal.
    pub fn number(self) -> u8
        ensures value { result ≡ enclose_number self }
    {
        // A match, and no discriminants: one case carries a fault that has a number of its own.
        match self {
            EncloseFault::Record(fault) => fault.number(),
            EncloseFault::NoForm => 71,
            EncloseFault::NoCell => 72,
            EncloseFault::NoRoom => 73,
        }
    }
}

impl From<RecordFault> for EncloseFault {
    ghost from_gives = { λ f r. r ≡ Record f };

    fn from(fault: RecordFault) -> EncloseFault {
        EncloseFault::Record(fault)
    }
}

/// Why the answer of a job is not handed over.
#[derive(Clone, Copy, PartialEq, Eq, Debug)]
pub enum DeliverFault {
    /// The output buffer is shorter than the answer.
    SmallOutput = -1,
    /// No memory is to be had.
    NoMemory = -2,
}

impl DeliverFault {
    /// The number of the refusal, which is no number of bytes.
    pub fn number(self) -> i64
        ensures value { result ≡ deliver_number self }
    {
        // One line, as each `number` of a refusal in mapping.
        self as i64
    }
}

impl From<AllocError> for DeliverFault {
    ghost from_gives = { λ _ r. r ≡ NoMemory };

    fn from(_fault: AllocError) -> DeliverFault {
        DeliverFault::NoMemory
    }
}

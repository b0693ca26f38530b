//! Why an input is refused, and the number of each refusal.
ghost use Rattle.std.specs.Prelude.{◌≡◌};
ghost use Rattle.job.specs.Loading.{load_number};
ghost use Rattle.job.specs.declared.fault.LoadFault.TheVariants.{Record};

use mapping::fault::RecordFault;

/// Why no mapping could be loaded. Of several faults the one that stands first here is given.
#[derive(Clone, Copy, PartialEq, Eq, Debug)]
pub enum LoadFault {
    /// 41: more than 4,096 bytes.
    TooLong,
    /// 42: the length bytes or the record are cut short.
    Cut,
    /// The record is refused, under the record's own number.
    Record(RecordFault),
}

impl LoadFault {
    /// The number of the refusal.
    pub fn number(self) -> u8
        ensures value { result ≡ load_number self }
    {
        // A match, and no discriminants: one case carries a fault that has a number of its own.
        match self {
            LoadFault::TooLong => 41,
            LoadFault::Cut => 42,
            LoadFault::Record(fault) => fault.number(),
        }
    }
}

impl From<RecordFault> for LoadFault {
    ghost from_gives = { λ f r. r ≡ Record f };

    fn from(fault: RecordFault) -> LoadFault {
        LoadFault::Record(fault)
    }
}

//! The loader: a mapping from the beginning of an input.
ghost use Rattle.std.specs.Prelude.{◌≡◌, Some, Ok, Err, MatchResult};
ghost use Rattle.mapping.specs.Framed.{beyond};
ghost use Rattle.mapping.specs.Listed.{first_listed};
ghost use Rattle.job.specs.Loading.{input_faults, Parted, Loaded};

use crate::fault::LoadFault;
use mapping::framed::split;
use mapping::mapping::Mapping;
use mapping::record::read;

/// The most bytes that an input may have.
pub const MOST_INPUT: usize = 4096;

/// The record of an input, and the bytes behind it: two bytes say how long the record is, most significant first, and it follows them.
pub fn parts(input: &[u8]) -> Result<(&[u8], &[u8]), LoadFault>
    ensures value { MatchResult result (λ p. Parted input.now p.0.now p.1.now) (λ f. first_listed (input_faults input.now) ≡ Some f) }
{
    if input.len() > MOST_INPUT {
        return Err(LoadFault::TooLong);
    }
    split(input).ok_or(LoadFault::Cut)
}

/// The mapping that the record of an input stands for, and the bytes behind the record.
pub(crate) fn load_with_rest(input: &[u8]) -> Result<(Mapping, &[u8]), LoadFault>
    ensures value { MatchResult result (λ p. Loaded input.now (Ok p.0) × (p.1.now ≡ beyond input.now)) (λ f. Loaded input.now (Err f)) }
{
    let (record, rest) = parts(input)?;
    let mut mapping = Mapping::new();
    read(record, &mut mapping)?;
    Ok((mapping, rest))
}

/// The mapping that the record of an input stands for.
pub fn load(input: &[u8]) -> Result<Mapping, LoadFault>
    ensures value { Loaded input.now result }
{
    load_with_rest(input).map(|(mapping, _)| mapping)
}

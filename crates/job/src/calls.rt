//! The calls of a job: three bytes each.
ghost use Rattle.std.specs.Prelude.{◌≡◌, IfOk};
ghost use Rattle.job.specs.Calls.{call_in, steps_of, valid};

use enquiry::call::Call;
use std::alloc::{AllocError, Global};

/// The call that three bytes stand for: its code, a region, and an input or a corner. None for an unknown code,
/// and for fewer bytes. Bytes that a call does not need are ignored.
fn call_of(bytes: &[u8]) -> Option<Call>
    ensures value { result ≡ call_in bytes.now }
{
    match *bytes {
        [b'H', region, input] => Some(Call::Halve(region, input)),
        [b'C', region, _] => Some(Call::Clear(region)),
        [b'P', region, corner] => Some(Call::Probe(region, corner)),
        [b'R', _, _] => Some(Call::Report),
        _ => None,
    }
}

/// The calls that bytes stand for, in their order. None stands for an unknown code, and for a last call cut short.
pub(crate) fn steps(heap: Global, bytes: &[u8]) -> Result<Vec<Option<Call>>, AllocError>
    ensures value { IfOk result (λ v. v.items ≡ steps_of bytes.now) }
{
    bytes.chunks(3).map(call_of).collect(heap)
}

/// The calls that can be made.
pub(crate) fn valid_calls(heap: Global, steps: &[Option<Call>]) -> Result<Vec<Call>, AllocError>
    ensures value { IfOk result (λ v. v.items ≡ valid steps.now) }
{
    steps.iter().filter_map(|step| *step).collect(heap)
}

// A whole job, from the caller's buffer to the caller's buffer.
ghost use Rattle.std.specs.Prelude.{◌≤◌, length, IfOk, string_bytes};
ghost use Rattle.gateway.specs.Delivered.{Handed, Delivered};
ghost use Rattle.gateway.specs.Refused.{deliver_told};

use crate::fault::DeliverFault;
use job::text::respond;
use std::alloc::Global;

/// Copies a text to the first bytes of `output` and gives its length; where it does not fit, nothing is changed.
fn hand_over(text: &String, output: &mut [u8]) -> Result<usize, DeliverFault>
    ensures value { Handed (string_bytes text.now) output.old (deliver_told result) output.new }
    ensures within { IfOk result (λ count. count ≤ length output.old) }
{
    let bytes = text.as_bytes();
    let count = bytes.len();
    if output.len() < count {
        return Err(DeliverFault::SmallOutput);
    }
    output[..count].copy_from_slice(bytes);
    Ok(count)
}

/// Runs a job and writes the text of its answer to the first bytes of `output`. Gives the number of these bytes. At a refusal no byte of
/// `output` has changed.
fn deliver(heap: Global, input: &[u8], output: &mut [u8]) -> Result<usize, DeliverFault>
    ensures value { Delivered input.now output.old (deliver_told result) output.new }
    ensures within { IfOk result (λ count. count ≤ length output.old) }
{
    let text = respond(heap, input)?;
    hand_over(&text, output)
}

/// The same for C: the number of bytes, or a negative number, and then no byte of `output` has changed.
#[unsafe(no_mangle)]
pub extern "C" fn rangecheck_job(heap: Global, input: &[u8], output: &mut [u8]) -> i64
    ensures value { Delivered input.now output.old result output.new }
{
    match deliver(heap, input, output) {
        // No `From` leads from a length to i64, which holds every length.
        Ok(count) => count as i64,
        Err(fault) => fault.number(),
    }
}

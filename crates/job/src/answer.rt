//! A whole job: from the bytes of the input to the lines of the answer.
ghost use Rattle.std.specs.Prelude.{IfOk};
ghost use Rattle.job.specs.Answering.{Told, Answered};
ghost use Rattle.job.specs.Calls.{steps_of};

use crate::calls::{steps, valid_calls};
use crate::fault::LoadFault;
use crate::line::Line;
use crate::lines::{add_lines, last_line};
use crate::load::load_with_rest;
use enquiry::run::run;
use forms::bernstein::Bernstein;
use forms::nested::Nested;
use forms::pair::Pair;
use mapping::mapping::Mapping;
use std::alloc::{AllocError, Global};

/// The lines of a run of the calls in `bytes` on a mapping, with the pair of Bernstein and nested form.
fn run_lines(heap: Global, mapping: Mapping, bytes: &[u8]) -> Result<Vec<Line>, AllocError>
    ensures value { IfOk result (λ v. Told mapping (steps_of bytes.now) v.items) }
{
    let steps = steps(heap, bytes)?;
    let calls = valid_calls(heap, &steps)?;
    let form = Pair {
        first: Bernstein,
        second: Nested,
    };
    let transcript = run(form, mapping, &calls, heap)?;
    let mut lines = vec![in heap; Line::Range(transcript.opening)]?;
    add_lines(&mut lines, &steps, &transcript.replies)?;
    lines.push(last_line(&mapping, transcript.closed))?;
    Ok(lines)
}

/// The lines that a job is answered by. Every input gets its answer; the reports among the lines are honest, and a witness is outside
/// the register.
pub fn answer(heap: Global, input: &[u8]) -> Result<Vec<Line>, AllocError>
    ensures value { IfOk result (λ v. Answered input.now v.items) }
{
    match load_with_rest(input) {
        Ok((mapping, rest)) => run_lines(heap, mapping, rest),
        Err(fault) => Ok(vec![in heap; Line::No(fault.into())]?),
    }
}

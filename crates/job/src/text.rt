//! The text of an answer: its lines, each ended by a newline.
ghost use Rattle.std.specs.Prelude.{◌≡◌, IfOk, string_bytes};
ghost use Rattle.job.specs.Printed.{printed, Text};

use crate::answer::answer;
use crate::line::Line;
use std::alloc::{AllocError, Global};

/// The lines one after the other, each ended by a newline.
fn text_of(heap: Global, lines: &[Line]) -> Result<String, AllocError>
    ensures value { IfOk result (λ s. string_bytes s ≡ printed lines.now) }
{
    let mut text = String::new(heap);
    for line in lines {
        text.writeln(line)?;
    }
    Ok(text)
}

/// The text that a job is answered by. Every input gets its answer.
pub fn respond(heap: Global, input: &[u8]) -> Result<String, AllocError>
    ensures value { IfOk result (λ s. Text input.now (string_bytes s)) }
{
    let lines = answer(heap, input)?;
    text_of(heap, &lines)
}

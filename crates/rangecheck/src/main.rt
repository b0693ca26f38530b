//! The range checker's program: a job from standard input, its answers to standard output.
#![tactic(auto)]

use job::load::MOST_INPUT;
use job::text::respond;
use std::alloc::Global;
use std::io::Read;

#[cfg(test)]
mod tests;

/// Reads at most one byte more than an input may have, which is enough to see that it is too long.
fn read_input<R: Read + Drop>(source: R, heap: Global) -> anyhow::Result<Vec<u8>> {
    let mut input = Vec::new(heap);
    // By `as`: no `From` leads from a length to u64, which holds every length.
    source.take(MOST_INPUT as u64 + 1).read_to_end(&mut input)?;
    Ok(input)
}

fn main(rt: HostRuntime) -> anyhow::Result<()> {
    let heap = rt.alloc();
    let input = read_input(rt.stdin(), heap)?;
    rt.print(respond(heap, &input)?)?;
    Ok(())
}

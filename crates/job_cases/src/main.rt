//! Jobs read from standard input, each behind two length bytes, and the text of each answer, with a line of one dot behind it.
#![tactic(auto)]

use job::text::respond;
use mapping::framed::split;
use std::io::Read;

fn main(rt: HostRuntime) -> anyhow::Result<()> {
    let heap = rt.alloc();
    let mut input = Vec::new(heap);
    rt.stdin().read_to_end(&mut input)?;
    let mut rest = input.as_slice();
    while let Some((job, next)) = split(rest) {
        rt.print(respond(heap, job)?)?;
        println!(rt; ".")?;
        rest = next;
    }
    Ok(())
}

//! Mappings and cells read from standard input, and what each form answers. A case is two length bytes, a record, and the nine bytes
//! of a cell.
#![tactic(auto)]

use forms::answer::Answer;
use forms::bernstein::Bernstein;
use forms::form::Form;
use forms::nested::Nested;
use forms::pair::Pair;
use mapping::cell::{Cell, Shape};
use mapping::framed::split;
use mapping::mapping::Mapping;
use mapping::packed::PACKED;
use mapping::record::read;
use std::io;
use std::io::Read;

/// Prints an answer behind the form's name.
fn show(rt: &impl Print, name: &str, answer: Answer) -> io::Result<()> {
    let Answer { low, high, slack } = answer;
    println!(rt; "{name} {low} {high} {slack}")
}

/// Asks all forms, one after the other.
fn ask_all(rt: &impl Print, record: &[u8], cell: [u8; PACKED]) -> io::Result<()> {
    let mut mapping = Mapping::new();
    if read(record, &mut mapping).is_err() {
        return println!(rt; "no record");
    }
    let Some(cell) = Cell::new(Shape::from(cell)) else {
        return println!(rt; "no cell");
    };
    show(rt, "nested", Nested.ask(&mapping, &cell))?;
    show(rt, "bernstein", Bernstein.ask(&mapping, &cell))?;
    let pair = Pair {
        first: Bernstein,
        second: Nested,
    };
    show(rt, "pair", pair.ask(&mapping, &cell))
}

fn main(rt: HostRuntime) -> anyhow::Result<()> {
    let heap = rt.alloc();
    let mut input = Vec::new(heap);
    rt.stdin().read_to_end(&mut input)?;
    let mut rest = input.as_slice();
    while let Some((record, next)) = split(rest) {
        let Some((cell, next)) = next.split_first_chunk::<PACKED>() else {
            break;
        };
        ask_all(&rt, record, *cell)?;
        rest = next;
    }
    Ok(())
}

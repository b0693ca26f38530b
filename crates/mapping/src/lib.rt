// What is checked: mappings, the cells of their input box, registers, and the record that a mapping comes in.
#![tactic(auto)]

pub mod bits;
pub mod boxes;
pub mod cell;
pub mod fault;
mod fields;
pub mod framed;
mod header;
pub mod kind;
pub mod mapping;
pub mod numbers;
pub mod packed;
pub mod record;
pub mod register;
mod terms;
pub mod writer;

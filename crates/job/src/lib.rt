//! Bytes in, lines out: what the program does with its input.
#![tactic(auto)]

pub mod answer;
mod calls;
pub mod denial;
pub mod fault;
pub mod line;
mod lines;
pub mod load;
pub mod spelling;
pub mod text;

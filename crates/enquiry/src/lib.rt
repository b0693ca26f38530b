// How a question is pursued: the open regions of a mapping's input box, the calls on them, and what is reported.
#![tactic(auto)]

mod answers;
pub mod call;
mod clearing;
pub mod closed;
pub mod enquiry;
mod fitting;
mod halving;
mod probing;
pub mod refusal;
pub mod report;
pub mod run;
mod shapes;
mod table;
pub mod witness;

//! How a cell is enclosed: what an enclosure form is, and the forms there are.
#![tactic(auto)]

pub mod answer;
pub mod bernstein;
pub mod form;
pub mod nested;
pub mod pair;
pub mod samples;

// What both of them read a mapping by, and take their slack from.
mod sums;
mod wide;

// What the nested form is made of.
mod table;

// What the Bernstein form is made of.
mod binomials;
mod casteljau;
mod grid;
mod side;
mod slack;
mod weighing;
mod whole;
mod work;

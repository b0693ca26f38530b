//! Whole-number arithmetic that rounds in a known direction: quotients rounded down or up, and the product of an enclosure by a factor.
#![tactic(auto)]

mod factor;
mod product;
mod rounding;
#[cfg(test)]
mod tests;

pub use factor::Factor;
pub use product::times;
pub use rounding::{Divisor, Power, Quotient, between, down_by, up_by};

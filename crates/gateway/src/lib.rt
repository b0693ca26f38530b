//! The checker as a C library: a handful of functions on numbers and byte slices. No caller owes more than valid slices:
//! bad input gets its number. include/rangecheck.h tells C of them.
#![tactic(auto)]

mod checked;
mod choice;
mod delivered;
mod enclosed;
mod fault;

// The words for registers, bits and causes, for whoever tells a lesson. The one table of words is `specs/Names.antt`.
#![tactic(auto)]

mod bits;
mod registers;
mod sets;
mod words;

pub use bits::{levels, lsr, marks, marks_named, msr, word};
pub use registers::register;
pub use sets::lines;
pub use words::iir;

// What came of a record, in words.
#![tactic(auto)]

mod refusals;
mod words;

pub use words::came;

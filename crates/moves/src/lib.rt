// What a record moved, in words: each thing that is other behind it than before.
#![tactic(auto)]

mod changes;
mod places;
mod signals;

pub use places::at_seat;
pub use signals::at_controller;

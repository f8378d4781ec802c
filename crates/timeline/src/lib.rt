// The timeline of a lesson, for a wave viewer: a value change dump. The bench behind each record is seen, and what has changed is told.
#![tactic(auto)]

mod heads;
mod steps;
mod values;

pub use heads::{head, head_end, seat_head};
pub use steps::{first, last, step};

// "Eight seats, 0 to 7", and a line for each.
pub(crate) const LINES: u8 = 8;

// A scope for each line and for each seat.
pub(crate) const SCOPES: u8 = 16;

// One line of the listing as text, put into a lent buffer.
#![tactic(auto)]

mod hex;
mod lines;
mod numbers;

pub use hex::digit;
pub use lines::put_after;
pub use numbers::{capital, put_front};

// What a record did, in words.
#![tactic(auto)]

mod deed;
mod places;
mod ports;

pub use deed::{cut, done};

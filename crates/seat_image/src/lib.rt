// A seat as a record of bytes in a lent buffer, and back: its channel's bytes, and its tallies behind them.
#![tactic(auto)]

mod reading;
mod tallies;
mod writing;

pub use reading::{get, length};
pub use writing::put;

// "eight seat records of one fixed length"
pub const LENGTH: usize = channel_image::LENGTH + TALLIES;

// "five 32-bit tallies"
pub(crate) const TALLIES: usize = 20;

// From this version on a record has tallies.
pub(crate) const WITH_TALLIES: u16 = 2;

// Where the tallies stand, from the place of the first.
pub(crate) const ARRIVED: usize = 0;

pub(crate) const READ: usize = 4;

pub(crate) const LOST: usize = 8;

pub(crate) const DROPPED: usize = 12;

pub(crate) const QUEUED: usize = 16;

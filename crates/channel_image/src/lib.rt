// A channel as bytes in a lent buffer, and back: the part of a seat's record that every version has.
#![tactic(auto)]

mod reading;
mod tests;
mod writing;

pub use reading::get;
pub use writing::put;

// "seat records of one fixed length": a channel's part of one
pub const LENGTH: usize = 66;

// A queue has so many slots.
pub(crate) const SLOTS: usize = 16;

// Where the fields stand.
pub(crate) const IER: usize = 0;

pub(crate) const FCR: usize = 1;

pub(crate) const LCR: usize = 2;

pub(crate) const MCR: usize = 3;

pub(crate) const CHANGES: usize = 4;

pub(crate) const SCRATCH: usize = 5;

pub(crate) const LEVELS: usize = 6;

pub(crate) const DLL: usize = 7;

pub(crate) const DLM: usize = 8;

pub(crate) const LAST: usize = 9;

pub(crate) const OVERRUN: usize = 10;

pub(crate) const KEPT: usize = 11;

pub(crate) const FLAG: usize = 12;

pub(crate) const TIMEOUT: usize = 13;

pub(crate) const BUSY: usize = 14;

pub(crate) const SHIFT: usize = 15;

pub(crate) const WAITING: usize = 16;

pub(crate) const OUTGOING: usize = 17;

pub(crate) const RECEIVED: usize = 33;

pub(crate) const ARRIVED: usize = 34;

pub(crate) const MARKS: usize = 50;

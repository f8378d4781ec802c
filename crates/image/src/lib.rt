// The whole bench as an image in a lent buffer, and back.
#![tactic(auto)]

mod reading;
mod writing;

use base::Answer;
use bench::Bench;
pub use reading::restore;
use records::SEATS;
pub use writing::save;

// "the three letters `BEN`, a 16-bit version (1, low byte first), the controller, then eight seat records of one fixed length";
// the version is 2 since ticket 8, and a version's records are of one length.
pub(crate) const HEADER: usize = 5;

pub(crate) const CONTROLLER: usize = 11;

pub(crate) const FRONT: usize = HEADER + CONTROLLER;

// Of the newest version.
pub const LENGTH: usize = FRONT + SEATS * seat_image::LENGTH;

// The newest version that the bench knows, which is the one it writes.
pub(crate) const NEWEST: u16 = 2;

// The bench after a restore, which is the one before it where that is refused.
#[derive(Clone, Copy)]
pub struct Restored {
    pub bench: Bench,
    pub answer: Answer,
}

// Where the controller's fields stand, from the place of the first.
pub(crate) const STAGE: usize = 0;

pub(crate) const LEVEL: usize = 1;

pub(crate) const BASE: usize = 2;

pub(crate) const FIRST: usize = 3;

pub(crate) const MASK: usize = 4;

pub(crate) const SERVICE: usize = 5;

pub(crate) const SPECIAL: usize = 6;

pub(crate) const AUTOMATIC: usize = 7;

pub(crate) const ROTATION: usize = 8;

pub(crate) const SELECTED: usize = 9;

pub(crate) const LATCHES: usize = 10;

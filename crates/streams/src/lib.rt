// The streams of events that second/TRIALS.md describes, written from that page alone, and the digests of what a bench answers
// to them. A stream does not look at the bench.
#![tactic(auto)]

mod asked;
mod columns;
mod digest;
mod draws;
mod rows;
mod scripts;
mod sets;
mod steps;

ghost use Rattle.std.specs.Prelude.{◌≡◌};

pub use digest::{add, letter_mark, outcome_mark, place_mark};
pub use draws::{advance, pick};
pub use rows::{Rows, script_rows};
pub use sets::SETS;

#[derive(Clone, Copy)]
pub struct Stream {
    pub x: u32,
    pub set: u8,
    pub mood: u8,
    pub seat: u8,
    pub row: u16,
    pub stop: u16,
    pub left: u8,
}

impl Stream {
    // The set is one of the numbers below `SETS`.
    pub fn start(seed: u32, set: u8) -> Stream
        ensures { result ≡ record { x = seed; set = set; mood = 0; seat = 0; row = 0; stop = 0; left = 0 } }
    {
        Stream {
            x: seed,
            set,
            mood: 0,
            seat: 0,
            row: 0,
            stop: 0,
            left: 0,
        }
    }
}

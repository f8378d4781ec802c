// Control sheets line by line: a settings line and its answer, and the four numbers that one is written from and theirs. Both are read
// byte by byte, so that a line of any length takes no more room.
#![tactic(auto)]

mod answers;
mod four;
mod lines;
mod words;

pub use words::read_clock;

// A settings line as far as it is read. None has more than 13 bytes, so that 14 tell it.
#[derive(Clone, Copy)]
pub struct Line {
    pub(crate) bytes: [u8; 14],
    pub(crate) count: usize,
}

// The numbers CLOCK DIVISOR LCR ROOM as far as they are read: which of them is being read, from 0, and whether it has a digit. At
// place 4 the line is not four numbers.
#[derive(Clone, Copy)]
pub struct Numbers {
    pub(crate) values: [u16; 4],
    pub(crate) place: u8,
    pub(crate) begun: bool,
}

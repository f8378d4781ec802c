// Text for a class: pieces of words, and pages that they fill, in lines that fit a terminal.
#![tactic(auto)]

mod notes;
mod pages;
mod pieces;

// What is said in one go. No line is broken within it.
#[derive(Clone, Copy)]
pub struct Piece {
    pub(crate) bytes: [u8; 68],
    pub(crate) count: usize,
}

// Lines as far as they are filled: the column behind the last byte, and whether nothing but the head stands there.
#[derive(Clone, Copy)]
pub struct Page {
    pub bytes: [u8; 4096],
    pub count: usize,
    pub(crate) column: usize,
    pub(crate) first: bool,
}

impl Piece {
    pub(crate) const MOST: usize = 68;
}

impl Page {
    pub(crate) const MOST: usize = 4096;

    // No line is longer.
    pub(crate) const WIDTH: usize = 80;
}

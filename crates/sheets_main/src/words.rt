// The program's words.
ghost use Rattle.std.specs.Prelude.{◌≤◌, length};

use crate::buffers::{LongWord, room};
use std::env::{Env, FillError};

// How many there are, the program's name among them.
pub(crate) fn count(rt: &impl Env) -> usize {
    (0..usize::MAX)
        .find(|i| matches!(rt.arg(*i, &mut []), Err(FillError::NotPresent)))
        .unwrap_or(usize::MAX)
}

// Puts the word at the start of a buffer. Its length; 0 where there is none, or where it is longer than the buffer.
fn read(rt: &impl Env, i: usize, word: &mut [u8]) -> usize
    ensures { result ≤ length word.new }
{
    rt.arg(i, word).unwrap_or(0)
}

// Whether the first word is this one.
pub(crate) fn is_word(rt: &impl Env, name: &[u8]) -> bool {
    let mut word = [0u8; 4096];
    let length = read(rt, 1, &mut word);
    &word[..length] == name
}

pub(crate) fn clock(rt: &impl Env) -> Option<u8> {
    let mut word: LongWord = room();
    let length = read(rt, 2, &mut word);
    sheets::read_clock(&word[..length])
}

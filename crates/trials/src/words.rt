// The words that the program is given, and the numbers among them.
use crate::list::Kind;
use std::env::{Env, FillError};
use std::str;

// No number that is read is above this one.
const MOST: u64 = 10_000_000_000_000_000_009;

// Digits alone: `parse` takes a sign too.
fn decimal(text: &[u8]) -> Option<u64> {
    if !text.iter().all(|c| c.is_ascii_digit()) {
        return None;
    }
    let number = str::from_utf8(text).ok()?.parse::<u64>().ok()?;
    (number <= MOST).then_some(number)
}

// How many there are, the program's name among them.
pub(crate) fn count(rt: &impl Env) -> usize {
    (0..usize::MAX)
        .find(|i| matches!(rt.arg(*i, &mut []), Err(FillError::NotPresent)))
        .unwrap_or(usize::MAX)
}

// A word, put at the start of a buffer. There may be none, or it may be longer than the buffer.
fn word<'a>(rt: &impl Env, i: usize, buffer: &'a mut [u8]) -> Option<&'a [u8]> {
    let n = rt.arg(i, buffer).ok()?;
    Some(&buffer[..n])
}

// What the first word asks for in place of a stream.
pub(crate) fn kind(rt: &impl Env) -> Option<Kind> {
    match word(rt, 1, &mut [0; 20])? {
        b"images" => Some(Kind::Images),
        b"pairs" => Some(Kind::Pairs),
        _ => None,
    }
}

// One that is left out is 0. The words are those of the command line, the program's name among them.
pub(crate) fn argument(rt: &impl Env, i: usize, words: usize) -> Option<u64> {
    if words <= i {
        return Some(0);
    }
    decimal(word(rt, i, &mut [0; 20])?)
}

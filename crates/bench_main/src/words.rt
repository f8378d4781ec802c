// The program's words. They are walked anew for each question, so that there may be as many as one likes.
ghost use Rattle.std.specs.Prelude.{◌≤◌, ℕ, List, IfSome, length};
ghost use Rattle.std.specs.Borrow.{Bor};
ghost use Rattle.std.specs.List.{FoldsTo};

use crate::files;
use crate::files::LongWord;
use options::Words;
use std::env::{Env, FillError};

// Puts the word at this place into the room and tells its length, which is 0 where it does not fit. Behind the last word there is none.
pub(crate) fn next(rt: &HostRuntime, place: usize, room: &mut [u8]) -> Option<usize>
    ensures { IfSome result (λ n. n ≤ length room.old) }
{
    match rt.arg(place, &mut *room) {
        Ok(length) => Some(length),
        Err(FillError::TooLong) => Some(0),
        Err(FillError::NotPresent) => None,
    }
}

// The word at this place, of which the words are known to have one.
pub(crate) fn at(rt: &HostRuntime, place: usize, room: &mut [u8]) -> usize
    ensures { result ≤ length room.old }
{
    next(rt, place, room).unwrap_or(0)
}

// Walks over the words: `f` makes a new value of the last one, a word's place and the word.
pub(crate) fn walk<T, F: Fn(T, usize, &[u8]) -> T>(rt: &HostRuntime, start: T, f: F) -> T
    requires { F.IsAlwaysCallable f }
    ensures { (walked : List (ℕ × Bor (List ℕ))) × FoldsTo (λ t w r. F.post f t w.0 w.1 r) start walked result }
{
    let mut word: LongWord = files::room();
    let mut made = start;
    for place in 1..usize::MAX {
        let Some(length) = next(rt, place, &mut word) else {
            break;
        };
        made = f(made, place, &word[..length]);
    }
    made
}

pub(crate) fn read(rt: &HostRuntime) -> Words {
    walk(rt, Words::start(), |words: Words, place, word| {
        words.after(place, word)
    })
}

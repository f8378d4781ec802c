// Lessons as text: what a teacher writes in an editor goes in, the bytes of its records come out, or its first fault.
#![tactic(auto)]

mod bytes;
mod causes;
mod characters;
mod comments;
mod faults;
mod places;

ghost use Rattle.lesson.specs.Lesson.{Reads};

pub use comments::{behind, comment_at};

// Of a text that is not longer, every line and column is a number that there is.
const LONGEST: usize = 4294967295;

#[derive(Clone, Copy)]
pub enum Lesson {
    // So many bytes stand at the start of the buffer.
    Bytes(usize),
    // The line, the column and the cause of the first fault.
    Fault(usize, usize, Cause),
    // The text is longer than any that is read.
    TooLong,
    // The bytes do not fit the buffer.
    NoRoom,
}

#[derive(Clone, Copy)]
pub enum Cause {
    NoDigit,
    OneDigit,
    // So many bytes of four.
    ShortRecord(u8),
    ByteOrderMark,
    Utf16,
}

// The part of a text that a comment is: from its number sign on, up to its end. Where both are the same there is none.
#[derive(Clone, Copy)]
pub struct Comment {
    pub from: usize,
    pub end: usize,
}

// Reads a text into the buffer. Where it has a fault or is too long, the buffer stays as it was.
pub fn read(text: &[u8], out: &mut [u8]) -> Lesson
    ensures { Reads text.now out.old out.new result }
{
    if LONGEST < text.len() {
        return Lesson::TooLong;
    }
    if let Some(at) = faults::first_fault(text) {
        let finding = causes::find(text, at);
        let place = places::place_behind(&text[..finding.at]);
        return Lesson::Fault(place.line, place.column, finding.cause);
    }
    let count = bytes::count_digits(text) / 2;
    if out.len() < count {
        return Lesson::NoRoom;
    }
    bytes::put_bytes(text, &mut *out);
    Lesson::Bytes(count)
}

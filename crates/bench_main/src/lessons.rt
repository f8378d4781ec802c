// A lesson from a file: its text is read whole, and run only where it has no fault.
ghost use Rattle.std.specs.Prelude.{◌≤◌, length};
ghost use Rattle.lesson.specs.Lesson.{longest};

use crate::files::{Buffer, LargeBuffer, Lines};
use crate::{course, files, told};
use bench::Bench;
use lesson::Lesson;
use std::env::{Env, FillError};
use std::fs::File;
use std::io::Error;
use std::process::ExitCode;

// The system's number for a name that is too long.
const NAME_TOO_LONG: i32 = 36;

// The system's number for a word that is not there.
const INVALID: i32 = 22;

// A lesson's text is shorter.
type LongText = [u8; 16777216];

// Room for 262144 records.
type Records = [u8; 1048576];

// The seats that the records name. One that is cut off names none.
fn named(records: &[u8]) -> u8 {
    records
        .chunks_exact(4)
        .fold(0, |used, one| sight::named(used, one[0], one[1]))
}

fn play(rt: &HostRuntime, bench: Bench, text: &[u8], records: &[u8]) -> ExitCode
    requires { length records.now ≤ 1048576 }
{
    let mut out: Lines = files::room();
    let start = course::begin(rt, bench, named(records));
    course::finish(rt, course::play(rt, start, records, text, true, &mut out))
}

// Neither room for a text is larger than what the reader reads.
fn play_text(rt: &HostRuntime, bench: Bench, path: &[u8], text: &[u8]) -> ExitCode
    requires { length text.now ≤ longest }
{
    let mut records: Records = files::room();
    match lesson::read(text, &mut records) {
        Lesson::Bytes(count) => return play(rt, bench, text, &records[..count]),
        Lesson::Fault(line, column, cause) => told::fault(rt, path, line, column, cause),
        Lesson::TooLong => told::too_long(rt, path),
        Lesson::NoRoom => told::too_many(rt, path),
    }
    ExitCode::SUCCESS
}

fn failed(rt: &HostRuntime, path: &[u8], error: Error) -> ExitCode {
    told::failed(rt, path, error);
    ExitCode::SUCCESS
}

// A text of which no more was read than there was room for. Its own room is taken where there is such a text, and in no caller.
#[inline(never)]
fn play_long(rt: &HostRuntime, bench: Bench, path: &[u8], file: &mut File, read: &[u8]) -> ExitCode
    requires { length read.now ≤ 65536 }
{
    let mut text: LongText = files::room();
    text[..read.len()].copy_from_slice(read);
    match files::read_on(file, &mut text, read.len()) {
        Err(error) => failed(rt, path, error),
        Ok(end) => {
            if end == text.len() {
                told::too_long(rt, path);
                return ExitCode::SUCCESS;
            }
            play_text(rt, bench, path, &text[..end])
        }
    }
}

// Why the lesson's name could not be had.
fn unnamed(why: FillError) -> Error {
    match why {
        FillError::TooLong => Error::from_raw_os_error(NAME_TOO_LONG),
        FillError::NotPresent => Error::from_raw_os_error(INVALID),
    }
}

// The lesson whose name stands at place `lesson`. It is called with the place before it.
//
// It calls itself, so the compiler does not put it into its caller, nor a function with a large room into it: the room for a long text is
// taken where there is one, and none of this where records come from standard input.
pub(crate) fn run(rt: &HostRuntime, place: usize, lesson: usize, bench: Bench) -> ExitCode {
    let mut path: Buffer = files::room();
    let mut text: LargeBuffer = files::room();
    let length = match rt.arg(lesson, &mut path) {
        Ok(length) => length,
        Err(why) => return failed(rt, b"bench: the lesson's name", unnamed(why)),
    };
    if place < lesson {
        return run(rt, lesson, lesson, bench);
    }
    let name = &path[..length];
    let mut file = match files::open(rt, name) {
        Ok(file) => file,
        Err(error) => return failed(rt, name, error),
    };
    let end = match files::read_on(&mut file, &mut text, 0) {
        Ok(end) => end,
        Err(error) => return failed(rt, name, error),
    };
    if end < text.len() {
        return play_text(rt, bench, name, &text[..end]);
    }
    play_long(rt, bench, name, &mut file, &text)
}

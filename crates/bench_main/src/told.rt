// What is said on standard error. A byte 1 stands before each fault, a byte 2 before words that are wrong, and none before a report: by these `bench`
// knows its status.
ghost use Rattle.std.specs.Prelude.{◌≤◌, length};

use crate::files::LongWord;
use crate::{files, words};
use base::Refusal;
use lesson::Cause;
use seat::Five;
use std::io::{Error, ErrorKind, Print, Write};
use std::process::ExitCode;

// What a shell shows where the signal of a pipe without a reader ends a program. The library holds that signal back.
const NO_READER: u8 = 141;

// What the library puts before an error's number.
const NUMBERED: &[u8] = b" (os error ";

// Where standard error cannot be written there is nowhere to say so.
fn say(rt: &HostRuntime, words: &[u8]) {
    let _ = Print::write_all(&rt.stderr(), words);
}

fn say_fault(rt: &HostRuntime, words: &[u8]) {
    say(rt, b"\x01");
    say(rt, words);
}

// The end of the system's own words for an error: the library puts the error's number behind them, and zeros stand behind that.
fn reason_end(text: &[u8]) -> usize
    ensures { result ≤ length text.now }
{
    let end = text.iter().position(|c| *c == 0).unwrap_or(text.len());
    text[..end]
        .windows(NUMBERED.len())
        .position(|words| words == NUMBERED)
        .unwrap_or(end)
}

fn say_reason(rt: &HostRuntime, error: Error) {
    let mut text = [0u8; 128];
    let mut room: &mut [u8] = &mut text;
    let _ = write!(room, "{error}");
    say(rt, &text[..reason_end(&text)]);
}

// A call to the system failed.
pub(crate) fn failed(rt: &HostRuntime, what: &[u8], error: Error) {
    say_fault(rt, what);
    say(rt, b": ");
    say_reason(rt, error);
    say(rt, b"\n");
}

// That nobody reads the listing any more is usual, and not told. The status is told by the lines, but for that.
pub(crate) fn not_written(rt: &HostRuntime, error: Error) -> ExitCode {
    if error.kind() == ErrorKind::BrokenPipe {
        return ExitCode::from(NO_READER);
    }
    say_fault(rt, b"bench: the listing could not be written\n");
    ExitCode::SUCCESS
}

pub(crate) fn no_timeline(rt: &HostRuntime) {
    say_fault(rt, b"bench: the timeline could not be written\n");
}

pub(crate) fn input_failed(rt: &HostRuntime) {
    say_fault(rt, b"bench: standard input could not be read\n");
}

// ---- words

// Where there is no place, one is missing behind the last.
pub(crate) fn wrong_words(rt: &HostRuntime, place: Option<usize>) {
    say(rt, b"\x02");
    let Some(place) = place else {
        say(rt, b"bench: a word is missing at the end\n");
        return;
    };
    let mut word: LongWord = files::room();
    let length = words::at(rt, place, &mut word);
    say(rt, b"bench: not understood: ");
    say(rt, &word[..length]);
    say(rt, b"\n");
}

// ---- images

const NO_ROOM: u8 = Refusal::NoRoom as u8;

const WRONG_MARK: u8 = Refusal::WrongMark as u8;

const UNKNOWN_VERSION: u8 = Refusal::UnknownVersion as u8;

fn why(refusal: u8) -> &'static str {
    match refusal {
        NO_ROOM => "it is too short for a saved bench",
        WRONG_MARK => "it is no saved bench",
        UNKNOWN_VERSION => "a saved bench of a version that this one does not know",
        _ => "a saved bench that cannot be",
    }
}

pub(crate) fn not_restored(rt: &HostRuntime, path: &[u8], refusal: u8) {
    let _ = eprintln!(rt; "\x01restore {refusal}");
    say_fault(rt, path);
    let _ = eprintln!(rt; ": {}; nothing was run", why(refusal));
}

pub(crate) fn missed(rt: &HostRuntime, path: &[u8], records: u64) {
    say_fault(rt, path);
    let _ = eprintln!(rt; ": not saved; the listing has only {records} records, numbered from 0");
}

pub(crate) fn long_name(rt: &HostRuntime) {
    say_fault(rt, b"bench: the name of a file is too long to save in it\n");
}

// ---- tallies

pub(crate) fn tallies(rt: &HostRuntime, seat: u8, five: Five) {
    let Five {
        arrived,
        read,
        lost,
        dropped,
        queued,
    } = five;
    let _ = eprintln!(rt;
        "seat {seat} arrived {arrived} read {read} lost {lost} dropped {dropped} queued {queued}"
    );
}

// ---- lessons

fn say_cause(rt: &HostRuntime, cause: Cause) {
    match cause {
        Cause::NoDigit => say(rt, b"no digit here"),
        Cause::OneDigit => say(rt, b"one digit alone"),
        Cause::ShortRecord(bytes) => {
            let _ = eprint!(rt; "the record begun here has {bytes} of 4 bytes");
        }
        Cause::ByteOrderMark => say(rt, b"a byte order mark: save the text without one"),
        Cause::Utf16 => say(rt, b"UTF-16: save the text as ASCII or UTF-8"),
    }
}

// The place is told as compilers tell it, so that an editor finds it.
pub(crate) fn fault(rt: &HostRuntime, path: &[u8], line: usize, column: usize, cause: Cause) {
    say_fault(rt, path);
    let _ = eprint!(rt; ":{line}:{column}: ");
    say_cause(rt, cause);
    say(rt, b"; nothing was run\n");
}

pub(crate) fn too_long(rt: &HostRuntime, path: &[u8]) {
    say_fault(rt, path);
    say(
        rt,
        b": a lesson has at most 16777215 characters; nothing was run\n",
    );
}

pub(crate) fn too_many(rt: &HostRuntime, path: &[u8]) {
    say_fault(rt, path);
    say(
        rt,
        b": a lesson has at most 262144 records; nothing was run\n",
    );
}

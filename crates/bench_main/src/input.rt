// Records from standard input, in blocks.
use crate::files::{LargeBuffer, Lines};
use crate::{course, files, told};
use bench::Bench;
use std::process::ExitCode;

// No loop here is endless. Each read but the last brings a byte, and no more records than a save's number can have are read.
const READS: u64 = 17592186044415;

// Nobody knows yet which seats will be named.
const EVERY_SEAT: u8 = 255;

// Bytes from `start` to `end` of `input` are read and not yet answered: at most three, of a record that is still to be completed.
// A block holds whole records, so that such a record always has its room behind it.
pub(crate) fn run(rt: &HostRuntime, bench: Bench) -> ExitCode {
    let mut input: LargeBuffer = files::room();
    let mut out: Lines = files::room();
    let mut course = course::begin(rt, bench, EVERY_SEAT);
    let mut start: usize = 0;
    let mut end: usize = 0;
    for _left in (0..READS).rev() {
        let Ok(filled) = files::fill(&mut rt.stdin(), &mut input, end) else {
            told::input_failed(rt);
            course::abandon(rt, course);
            return ExitCode::SUCCESS;
        };
        let last = filled == end;
        end = filled;
        course = course::play(rt, course, &input[start..end], b"", last, &mut out);
        if last | course.failed.is_some() {
            return course::finish(rt, course);
        }
        start = end - (end - start) % 4;
        if start == end {
            start = 0;
            end = 0;
        }
    }
    ExitCode::SUCCESS
}

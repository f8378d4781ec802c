// A run: records in, lines or pages out, and between them the saves that are due.
ghost use Rattle.std.specs.Prelude.{◌≡◌, ◌+◌, ◌-◌, ◌*◌, ◌%◌, ◌≤◌, ◌<◌, length};

use crate::files::Lines;
use crate::telling::Telling;
use crate::{saves, states, tallies, telling, timelines, told};
use bench::Bench;
use options::Now;
use std::io::{Error, Print};
use std::process::ExitCode;

// `files::lines` has room for as many lines.
const MOST: u64 = 16384;

// How far a run has come: the bench behind so many records. It has failed where the listing could not be written, by that error.
#[derive(Drop)]
pub(crate) struct Course {
    pub(crate) bench: Bench,
    pub(crate) number: u64,
    pub(crate) failed: Option<Error>,
    pub(crate) telling: Telling,
}

// `used` are the seats that a timeline tells of, beside those in use already.
pub(crate) fn begin(rt: &HostRuntime, bench: Bench, used: u8) -> Course
    ensures { result.number ≡ 0 }
{
    saves::make(rt, bench, Now::Behind(0), 0);
    Course {
        bench,
        number: 0,
        failed: None,
        telling: telling::begin(rt, bench, used),
    }
}

// The bytes that are answered: where the input goes on, only those of whole records.
fn answered(bytes: usize, last: bool) -> usize
    ensures { result ≤ bytes }
{
    if last {
        return bytes;
    }
    bytes - bytes % 4
}

// Where a run stops that has come to byte `at` of `all`, behind so many records: at the next save, where the lines have no more room, or at the end.
fn part_end(rt: &HostRuntime, number: u64, at: usize, all: usize) -> usize
    requires { (at < all) × (number ≤ 1152921504606846976) }
    ensures { (at < result) × (result ≤ all) × (result ≤ at + 65536) }
{
    let part = 4 * (saves::stop(rt, number, number + MOST) - number) as usize;
    if all - at <= part {
        return all;
    }
    at + part
}

// The listing of some records, for which `out` has room.
pub(crate) fn list(
    rt: &HostRuntime,
    start: Course,
    records: &[u8],
    last: bool,
    out: &mut Lines,
) -> Course
    requires { (start.number + length records.now ≤ 1152921504606846976) × (length records.now ≤ 65536) }
    ensures { result.number ≤ start.number + length records.now }
{
    let telling = start.telling;
    let ran = listing::run(start.bench, start.number, records, last, &mut *out);
    let bench = ran.bench;
    let written = ran.written;
    let number = start.number + ran.records as u64;
    let failed = rt.write_all(&out[..written]).err();
    Course {
        bench,
        number,
        failed,
        telling,
    }
}

fn part(
    rt: &HostRuntime,
    start: Course,
    records: &[u8],
    text: &[u8],
    last: bool,
    out: &mut Lines,
) -> Course
    requires { (start.number + length records.now ≤ 1152921504606846976) × (length records.now ≤ 65536) }
    ensures { result.number ≤ start.number + length records.now }
{
    if start.telling.is_plain() {
        return list(rt, start, records, last, &mut *out);
    }
    telling::tell(rt, start, records, text, last, &mut *out)
}

// Answers the records, and saves the bench behind each at which a save is due. `last` tells that the input ends there; `text` is the lesson's.
pub(crate) fn play(
    rt: &HostRuntime,
    start: Course,
    records: &[u8],
    text: &[u8],
    last: bool,
    out: &mut Lines,
) -> Course
    requires { (start.number + length records.now ≤ 1152921504606846976) }
    ensures { result.number ≤ start.number + length records.now }
{
    let mut course = start;
    let mut at: usize = 0;
    let all = answered(records.len(), last);
    while at < all {
        let end = part_end(rt, course.number, at, all);
        course = part(rt, course, &records[at..end], text, last, &mut *out);
        if course.failed.is_some() {
            return course;
        }
        let number = course.number;
        saves::make(rt, course.bench, Now::Behind(number), number);
        at = end;
    }
    course
}

// The input could not be read on, or the listing not be written.
pub(crate) fn abandon(rt: &HostRuntime, course: Course) {
    let telling = course.telling;
    timelines::abandon(rt, telling.file);
}

pub(crate) fn finish(rt: &HostRuntime, course: Course) -> ExitCode
    requires { course.number ≤ 1152921504606846976 }
{
    if let Some(error) = course.failed {
        abandon(rt, course);
        return told::not_written(rt, error);
    }
    let number = course.number;
    let bench = course.bench;
    let telling = course.telling;
    let last = telling.last;
    saves::make(rt, bench, Now::End(number), number);
    timelines::finish(rt, telling.file, number);
    if last {
        if let Err(error) = states::show(rt, bench) {
            return told::not_written(rt, error);
        }
    }
    tallies::tell(rt, bench);
    ExitCode::SUCCESS
}

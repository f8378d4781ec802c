// What is told of a run beside its listing, or in its place: each record in words, the state behind it, the timeline.
ghost use Rattle.std.specs.Prelude.{◌≡◌, ◌+◌, ◌≤◌, ◌<◌, length};

use crate::course::Course;
use crate::files::Lines;
use crate::{course, states, timelines, told, words};
use account::Told;
use base::Whole;
use bench::Bench;
use page::Page;
use sight::Sight;
use std::fs::File;
use std::io;
use std::io::{Print, Write};

// Eight digits are a record.
const DIGITS: usize = 8;

const RECORD_BYTES: usize = 4;

// What the words ask for; the place behind the last record in the lesson's text; the timeline's file where there is one, and the seats that it tells of.
#[derive(Drop)]
pub(crate) struct Telling {
    pub(crate) explain: bool,
    pub(crate) each: bool,
    pub(crate) last: bool,
    pub(crate) place: usize,
    pub(crate) file: Option<File>,
    pub(crate) used: u8,
}

impl Telling {
    pub(crate) fn is_plain(&self) -> bool {
        !(self.explain | self.each) & self.file.is_none()
    }
}

pub(crate) fn begin(rt: &HostRuntime, bench: Bench, named: u8) -> Telling {
    let words = words::read(rt);
    let each = words.place_of(options::EACH).is_some();
    let used = states::in_use(bench, named);
    Telling {
        explain: words.place_of(options::EXPLAIN).is_some(),
        each,
        last: words.place_of(options::SHOW).is_some() & !each,
        place: 0,
        file: timelines::begin(rt, words.place_of(options::TIMELINE), used, bench),
        used,
    }
}

pub(crate) fn print(rt: &HostRuntime, page: Page) -> io::Result<()> {
    let bytes = page.bytes;
    let length = page.length();
    rt.write_all(&bytes[..length])
}

pub(crate) fn write(file: &mut File, page: Page) -> io::Result<()> {
    let bytes = page.bytes;
    let length = page.length();
    file.write_all(&bytes[..length])
}

// A record that the input cuts off has fewer bytes.
fn account(bench: Bench, n: u64, one: &[u8], comment: &[u8]) -> Told {
    let &[kind, seat, number, value, ..] = one else {
        return account::short(bench, n);
    };
    let whole = Whole {
        kind,
        seat,
        number,
        value,
    };
    account::record(bench, n, whole, comment)
}

fn explain(rt: &HostRuntime, start: Course, one: &[u8], text: &[u8]) -> Course
    requires { start.number < 1152921504606846976 }
    ensures { result.number ≡ start.number + 1 }
{
    let mut telling = start.telling;
    let place = lesson::behind(text, telling.place, DIGITS);
    let comment = lesson::comment_at(text, place);
    let from = comment.from;
    let end = comment.end;
    let told = account(start.bench, start.number, one, &text[from..end]);
    let bench = told.bench;
    let failed = print(rt, told.page).err();
    telling.place = place;
    Course {
        bench,
        number: start.number + 1,
        failed,
        telling,
    }
}

fn answer(
    rt: &HostRuntime,
    start: Course,
    one: &[u8],
    text: &[u8],
    last: bool,
    out: &mut Lines,
) -> Course
    requires { (start.number + length one.now ≤ 1152921504606846976) × (0 < length one.now) × (length one.now ≤ 4) }
    ensures { result.number ≤ start.number + length one.now }
{
    if start.telling.explain {
        return explain(rt, start, one, text);
    }
    course::list(rt, start, one, last, &mut *out)
}

// What follows a record: the state, and the step of the timeline.
fn follow(rt: &HostRuntime, start: Course, before: Sight) -> Course
    ensures { result.number ≡ start.number }
{
    let mut course = start;
    if course.telling.each {
        if let Err(error) = states::show(rt, course.bench) {
            course.failed = Some(error);
            return course;
        }
    }
    timelines::step(rt, &mut course.telling, course.number, before, course.bench);
    course
}

// Some records, one by one.
pub(crate) fn tell(
    rt: &HostRuntime,
    start: Course,
    records: &[u8],
    text: &[u8],
    last: bool,
    out: &mut Lines,
) -> Course
    requires { (start.number + length records.now ≤ 1152921504606846976) }
    ensures { result.number ≤ start.number + length records.now }
{
    let mut course = start;
    for one in records.chunks(RECORD_BYTES) {
        let before = Sight::of(course.bench);
        course = answer(rt, course, one, text, last, &mut *out);
        if course.failed.is_some() {
            return course;
        }
        course = follow(rt, course, before);
        if course.failed.is_some() {
            return course;
        }
    }
    course
}

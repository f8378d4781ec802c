// The timeline's file. It is written beside the other under a name of its own, and given the other's name when it is whole.
ghost use Rattle.std.specs.Prelude.{◌≤◌, length};

use crate::files::{Buffer, LongWord};
use crate::telling::{Telling, write};
use crate::{files, saves, told, words};
use bench::Bench;
use options::TIMELINE;
use records::SEATS;
use sight::Sight;
use std::fs::File;
use std::io;

// Writes which variables there are.
fn head(file: &mut File, used: u8) -> io::Result<()> {
    write(&mut *file, timeline::head())?;
    for n in 0..SEATS {
        if base::bit(n as u8, used) {
            write(&mut *file, timeline::seat_head(n as u8))?;
        }
    }
    write(&mut *file, timeline::head_end())
}

// Writes what stands before the first record.
fn first(file: &mut File, used: u8, bench: Bench) -> io::Result<()> {
    head(&mut *file, used)?;
    write(&mut *file, timeline::first(used, Sight::of(bench)))
}

// The new file that was opened, or none where it could not be begun.
fn begun(rt: &HostRuntime, new: &[u8], mut file: File, used: u8, bench: Bench) -> Option<File> {
    match first(&mut file, used, bench) {
        Ok(()) => Some(file),
        Err(error) => {
            told::failed(rt, new, error);
            let _ = files::remove(rt, new);
            None
        }
    }
}

// The new file, or none where it could not be made.
fn make(rt: &HostRuntime, new: &[u8], used: u8, bench: Bench) -> Option<File> {
    match files::create(rt, new) {
        Ok(file) => begun(rt, new, file, used, bench),
        Err(error) => {
            told::failed(rt, new, error);
            None
        }
    }
}

// The file whose name stands at this place, if there is one.
pub(crate) fn begin(
    rt: &HostRuntime,
    place: Option<usize>,
    used: u8,
    bench: Bench,
) -> Option<File> {
    let place = place?;
    let mut word: LongWord = files::room();
    let length = words::at(rt, place, &mut word);
    if saves::LONGEST < length {
        told::long_name(rt);
        return None;
    }
    let mut name: Buffer = files::room();
    let end = saves::put_name(&word[..length], &mut name);
    make(rt, &name[..end], used, bench)
}

// The file, which is closed, is given its name where it is whole, and is removed where it is not.
fn leave(rt: &HostRuntime, whole: bool) {
    let mut word: LongWord = files::room();
    let mut name: Buffer = files::room();
    let words = words::read(rt);
    let Some(place) = words.place_of(TIMELINE) else {
        return;
    };
    let length = words::at(rt, place, &mut word);
    if saves::LONGEST < length {
        return;
    }
    let end = saves::put_name(&word[..length], &mut name);
    if whole {
        saves::rename(rt, &word[..length], &name[..end]);
        return;
    }
    let _ = files::remove(rt, &name[..end]);
}

// Writes what a record changed. A file that could not be written is none from then on.
pub(crate) fn step(
    rt: &HostRuntime,
    telling: &mut Telling,
    number: u64,
    before: Sight,
    bench: Bench,
) {
    let used = telling.used;
    let Some(file) = &mut telling.file else {
        return;
    };
    if write(file, timeline::step(used, number, before, Sight::of(bench))).is_ok() {
        return;
    }
    told::no_timeline(rt);
    telling.file = None;
    leave(rt, false);
}

pub(crate) fn abandon(rt: &HostRuntime, file: Option<File>) {
    if file.is_none() {
        return;
    }
    drop(file);
    leave(rt, false);
}

fn end(file: &mut File, number: u64) -> io::Result<()>
    requires { number ≤ 1152921504606846976 }
{
    write(&mut *file, timeline::last(number + 1))?;
    file.sync_all()
}

pub(crate) fn finish(rt: &HostRuntime, file: Option<File>, number: u64)
    requires { number ≤ 1152921504606846976 }
{
    let Some(mut file) = file else {
        return;
    };
    let whole = end(&mut file, number).is_ok();
    if !whole {
        told::no_timeline(rt);
    }
    drop(file);
    leave(rt, whole);
}

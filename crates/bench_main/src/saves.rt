// The saves that the words ask for: how far a run may go before the next, and those that are due.
ghost use Rattle.std.specs.Prelude.{◌+◌, ◌≤◌, ◌<◌, length};

use crate::files::Buffer;
use crate::{files, told, words};
use bench::Bench;
use options::{Due, Now, Words};
use std::fs::File;
use std::io;
use std::io::Write;

// A name has room for what is put behind it.
pub(crate) const LONGEST: usize = 4092;

// The number of records behind which a run must stop that stands behind `from` and was to stop behind `most`.
pub(crate) fn stop(rt: &HostRuntime, from: u64, most: u64) -> u64
    requires { from < most }
    ensures { (from < result) × (result ≤ most) }
{
    let start = (Words::start(), most);
    let (_, stop) = words::walk(rt, start, |(words, stop), place, word| {
        (words.after(place, word), words.stop(from, stop))
    });
    stop
}

// What is in the file has reached its device, so that a name given to it afterwards names all of it.
fn write(file: &mut File, bytes: &[u8]) -> io::Result<()> {
    file.write_all(bytes)?;
    file.sync_all()
}

// Writes the new file, whole. One that is not is removed.
fn fill(rt: &HostRuntime, new: &[u8], file: &mut File, bytes: &[u8]) -> bool {
    match write(file, bytes) {
        Ok(()) => true,
        Err(error) => {
            told::failed(rt, new, error);
            let _ = files::remove(rt, new);
            false
        }
    }
}

// Whether the new file stands, whole.
fn is_made(rt: &HostRuntime, new: &[u8], bytes: &[u8]) -> bool {
    match files::create(rt, new) {
        Ok(mut file) => fill(rt, new, &mut file, bytes),
        Err(error) => {
            told::failed(rt, new, error);
            false
        }
    }
}

// The new file, which is whole, in the place of the other.
pub(crate) fn rename(rt: &HostRuntime, file: &[u8], new: &[u8]) {
    if let Err(error) = files::rename(rt, new, file) {
        told::failed(rt, file, error);
        let _ = files::remove(rt, new);
    }
}

fn put(rt: &HostRuntime, file: &[u8], new: &[u8], bytes: &[u8]) {
    if is_made(rt, new, bytes) {
        rename(rt, file, new);
    }
}

// The name of the new file, which stands beside the other.
pub(crate) fn put_name(file: &[u8], name: &mut [u8]) -> usize
    requires { length file.now + 4 ≤ length name.old }
    ensures { result ≤ length name.old }
{
    let behind = file.len();
    name[..behind].copy_from_slice(file);
    name[behind..behind + 4].copy_from_slice(b".new");
    behind + 4
}

fn save(rt: &HostRuntime, bench: Bench, file: &[u8]) {
    if LONGEST < file.len() {
        told::long_name(rt);
        return;
    }
    let mut name: Buffer = files::room();
    let mut bytes: Buffer = files::room();
    let end = put_name(file, &mut name);
    image::save(bench, &mut bytes, 0);
    put(rt, file, &name[..end], &bytes[..image::LENGTH]);
}

// Saves the bench wherever a save is due now. Of one that is missed it is told how many records there were.
pub(crate) fn make(rt: &HostRuntime, bench: Bench, now: Now, records: u64) {
    words::walk(rt, Words::start(), |words: Words, place, word| {
        match words.due(now) {
            Due::No => {}
            Due::Save => save(rt, bench, word),
            Due::Missed => told::missed(rt, word, records),
        }
        words.after(place, word)
    });
}

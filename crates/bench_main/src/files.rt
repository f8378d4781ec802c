// Files by the names that words give them, what the program reads, and its room for what it writes.
ghost use Rattle.std.specs.Prelude.{◌≡◌, ◌≤◌, IfOk, length};

use std::fs::{File, OpenOptions};
use std::io::{Error, ErrorKind, Read};
use std::{fs, io};

// Room for the lines of 16384 records, 32 bytes for each.
pub(crate) type Lines = [u8; 524288];

// Room for any name, and for an image.
pub(crate) type Buffer = [u8; 4096];

pub(crate) type LargeBuffer = [u8; 65536];

// No word of a command line is longer.
pub(crate) type LongWord = [u8; 131072];

pub(crate) fn room<const N: usize>() -> [u8; N]
    ensures { N ≡ length result }
{
    [0u8; N]
}

// The library names a file by text alone.
fn as_text(name: &[u8]) -> io::Result<&str> {
    std::str::from_utf8(name).map_err(|_| Error::from(ErrorKind::InvalidFilename))
}

pub(crate) fn open(rt: &HostRuntime, name: &[u8]) -> io::Result<File> {
    File::open(rt, as_text(name)?)
}

// A file that was not there before.
pub(crate) fn create(rt: &HostRuntime, name: &[u8]) -> io::Result<File> {
    OpenOptions::new()
        .write(true)
        .create_new(true)
        .open(rt, as_text(name)?)
}

pub(crate) fn rename(rt: &HostRuntime, from: &[u8], to: &[u8]) -> io::Result<()> {
    fs::rename(rt, as_text(from)?, as_text(to)?)
}

pub(crate) fn remove(rt: &HostRuntime, name: &[u8]) -> io::Result<()> {
    fs::remove_file(rt, as_text(name)?)
}

// One read into the block behind `end`, and the end then. At the end of the input it does not move.
pub(crate) fn fill<R: Read>(input: &mut R, block: &mut [u8], end: usize) -> io::Result<usize>
    requires { end ≤ length block.old }
    ensures within { IfOk result (λ filled. (end ≤ filled) × (filled ≤ length block.old)) }
    ensures kept { length block.new ≡ length block.old }
{
    let got = input.read(&mut block[end..])?;
    Ok(end + got)
}

// Reads behind `start` until the file ends, the buffer is full or a read fails.
pub(crate) fn read_on(file: &mut File, text: &mut [u8], start: usize) -> io::Result<usize>
    requires { start ≤ length text.old }
    ensures within { IfOk result (λ end. end ≤ length text.old) }
    ensures kept { length text.new ≡ length text.old }
{
    let mut end = start;
    while end < text.len() {
        let filled = fill(&mut *file, &mut *text, end)?;
        if filled == end {
            return Ok(end);
        }
        end = filled;
    }
    Ok(end)
}

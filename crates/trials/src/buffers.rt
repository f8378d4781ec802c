// A buffer with the image of a bench at some place in it.
ghost use Rattle.std.specs.Prelude.{◌≤◌};

use crate::digest::Digest;
use crate::lent::Lent;
use bench::Bench;
use image::Restored;

pub(crate) const ROOM: usize = 760;

// "A fresh buffer has 760 bytes, each 165."
const FRESH: u8 = 165;

pub(crate) const RECORD: usize = 86;

// "The first 66 bytes of its record."
const OLD_RECORD: usize = 66;

const FRONT: u16 = 16;

const VERSION: u16 = 3;

pub(crate) const SEATS: u8 = 8;

#[derive(Clone, Copy)]
pub(crate) struct Buffer {
    pub bytes: [u8; ROOM],
    pub at: u8,
    // Whether the image is of version 1.
    pub old: bool,
}

// The bench is saved into a fresh buffer as far as that is lent; the number is added, and the whole buffer.
pub(crate) fn save(digest: &mut Digest, bench: Bench, lent: Lent) -> [u8; ROOM] {
    let mut buffer = [FRESH; ROOM];
    let number = lent.save(bench, &mut buffer);
    digest.add(number as u32);
    digest.add_buffer(&buffer);
    buffer
}

impl Buffer {
    // "keep(bench, p)"
    pub(crate) fn keep(digest: &mut Digest, bench: Bench, at: u8) -> Buffer {
        Buffer {
            bytes: save(digest, bench, Lent::whole(at)),
            at,
            old: false,
        }
    }

    // "Restored at place p, with length 760."
    pub(crate) fn restore(&self, over: Bench) -> Restored {
        Lent::whole(self.at).restore(over, &self.bytes)
    }

    // Where seat n's record begins in the image: "r is 66", or "r is 86".
    pub(crate) fn record_at(&self, n: u8) -> u16
        ensures { result ≤ 21946 }
    {
        let size: u16 = if self.old { 66 } else { 86 };
        FRONT + size * n as u16
    }

    // "Positions count from the image's beginning": so many bytes from this one on. The buffer has every position that is asked for; the zeros are there so
    // that this need not be shown.
    pub(crate) fn part<const N: usize>(&self, position: u16) -> [u8; N] {
        let at = self.at as usize + position as usize;
        let mut part = [0; N];
        for (to, byte) in part.iter_mut().zip(self.bytes.iter().skip(at)) {
            *to = *byte;
        }
        part
    }

    pub(crate) fn put(&mut self, position: u16, part: &[u8]) {
        let at = self.at as usize + position as usize;
        for (to, byte) in self.bytes.iter_mut().skip(at).zip(part) {
            *to = *byte;
        }
    }

    // The record of seat n.
    pub(crate) fn record(&self, n: u8) -> [u8; RECORD] {
        self.part(self.record_at(n))
    }

    // "In a fresh buffer at the same place p: bytes 0 to 15 of the image as they are, but byte 3 is 1; then for each seat n the first 66 bytes of its
    // record."
    pub(crate) fn older(&self) -> Buffer {
        let mut old = Buffer {
            bytes: [FRESH; ROOM],
            at: self.at,
            old: true,
        };
        let front: [u8; FRONT as usize] = self.part(0);
        old.put(0, &front);
        old.put(VERSION, &[1]);
        for n in 0..SEATS {
            let record: [u8; OLD_RECORD] = self.part(self.record_at(n));
            old.put(old.record_at(n), &record);
        }
        old
    }
}

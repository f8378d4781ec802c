// How much of a buffer is lent to a call, and which place in it is named.
use crate::buffers::ROOM;
use bench::Bench;
use image::Restored;

// A byte less than an image has, and the number of places that have room for one.
const TOO_FEW: usize = 703;

const PLACES: usize = 57;

// Past the end of every buffer, and around the end of this one.
const FAR: usize = 65536;

const NEAR_END: usize = 752;

#[derive(Clone, Copy)]
pub(crate) struct Lent {
    length: usize,
    at: usize,
}

impl Lent {
    fn new(length: usize, at: usize) -> Lent {
        Lent { length, at }
    }

    pub(crate) fn whole(at: u8) -> Lent {
        Lent::new(ROOM, at as usize)
    }

    // "No room", by s, with q and p
    pub(crate) fn no_room(s: u8, q: u16, p: u8) -> Lent {
        let spot = q as usize;
        let place = p as usize;
        match s {
            0 => Lent::new(spot, 0),
            1 => Lent::new(ROOM, PLACES + spot),
            2 => Lent::new(ROOM, FAR + spot),
            _ => Lent::new(place + TOO_FEW, place),
        }
    }

    // "Lend", by h, with m and p
    pub(crate) fn of_damage(h: u8, m: u16, p: u8) -> Lent {
        let spot = m as usize;
        let place = p as usize;
        match h {
            0 => Lent::new(place + spot, place),
            1 => Lent::new(ROOM, place + spot),
            2 => Lent::new(ROOM, FAR + spot),
            3 => Lent::new(ROOM, NEAR_END + spot % 16),
            _ => Lent::whole(p),
        }
    }

    // "Only the first L bytes of the buffer are lent." It has so many; the lesser is taken so that this need not be shown.
    pub(crate) fn save(self, bench: Bench, buffer: &mut [u8]) -> u8 {
        let end = self.length.min(buffer.len());
        image::save(bench, &mut buffer[..end], self.at).refusal()
    }

    pub(crate) fn restore(self, bench: Bench, buffer: &[u8]) -> Restored {
        let end = self.length.min(buffer.len());
        image::restore(bench, &buffer[..end], self.at)
    }
}

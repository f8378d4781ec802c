// The benches that a trial may start from.
use crate::buffers::{Buffer, ROOM, SEATS};
use bench::Bench;

const ARRIVED: u16 = 66;

const READ: u16 = 70;

// How many characters each seat of start 1 can still receive.
const LEFT: [u32; 8] = [0, 1, 35, 100, 400, 18, 20, 4000];

#[derive(Clone, Copy)]
pub(crate) enum Start {
    PowerUp,
    NearTheLargest,
}

// "In the record of each seat n the tallies arrived and read are both 4294967295 - D[n]."
fn near_the_largest() -> Bench {
    let mut image = Buffer {
        bytes: [0; ROOM],
        at: 0,
        old: false,
    };
    image.put(0, b"BEN\x02");
    for (n, left) in (0..SEATS).zip(LEFT) {
        let tally = u32::MAX.wrapping_sub(left).to_le_bytes();
        let record = image.record_at(n);
        image.put(record + ARRIVED, &tally);
        image.put(record + READ, &tally);
    }
    image.restore(Bench::power_up()).bench
}

impl Start {
    pub(crate) fn numbered(number: u64) -> Option<Start> {
        match number {
            0 => Some(Start::PowerUp),
            1 => Some(Start::NearTheLargest),
            _ => None,
        }
    }

    pub(crate) fn bench(self) -> Bench {
        match self {
            Start::PowerUp => Bench::power_up(),
            Start::NearTheLargest => near_the_largest(),
        }
    }

    // "That of the other start, 1 - start."
    pub(crate) fn other(self) -> Start {
        match self {
            Start::PowerUp => Start::NearTheLargest,
            Start::NearTheLargest => Start::PowerUp,
        }
    }
}

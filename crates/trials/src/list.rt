// The trials that are run each time: the streams, behind them the saved benches, and then the pairs.
use crate::starts::Start;
use crate::starts::Start::{NearTheLargest, PowerUp};
use Kind::{Images, Pairs, Stream};

#[derive(Clone, Copy)]
pub(crate) enum Kind {
    Stream,
    Images,
    Pairs,
}

// Which kind it is, then "seed, count, set, start".
#[derive(Clone, Copy)]
pub(crate) struct Trial(pub Kind, pub u32, pub u64, pub u8, pub Start);

// The first four are short, so that a fault in every event shows at once.
pub(crate) const LIST: [Trial; 43] = [
    Trial(Stream, 1, 1000, 0, PowerUp),
    Trial(Stream, 2, 1000, 0, PowerUp),
    Trial(Stream, 3, 1000, 0, PowerUp),
    Trial(Stream, 4, 1000, 0, PowerUp),
    Trial(Stream, 5, 200000, 0, PowerUp),
    Trial(Stream, 6, 200000, 0, PowerUp),
    Trial(Stream, 7, 200000, 0, PowerUp),
    Trial(Stream, 8, 200000, 0, PowerUp),
    Trial(Stream, 9, 200000, 0, PowerUp),
    Trial(Stream, 10, 200000, 0, PowerUp),
    Trial(Stream, 11, 200000, 0, PowerUp),
    Trial(Stream, 12, 200000, 0, PowerUp),
    Trial(Stream, 13, 200000, 0, PowerUp),
    Trial(Stream, 14, 200000, 0, PowerUp),
    Trial(Stream, 15, 200000, 0, PowerUp),
    Trial(Stream, 4294967295, 200000, 0, PowerUp),
    Trial(Stream, 16, 1000, 1, PowerUp),
    Trial(Stream, 17, 200000, 1, PowerUp),
    Trial(Stream, 18, 200000, 1, PowerUp),
    Trial(Stream, 19, 200000, 1, PowerUp),
    Trial(Stream, 20, 1000, 0, NearTheLargest),
    Trial(Stream, 21, 200000, 0, NearTheLargest),
    Trial(Stream, 22, 200000, 1, NearTheLargest),
    Trial(Images, 101, 20000, 0, PowerUp),
    Trial(Images, 102, 20000, 0, PowerUp),
    Trial(Images, 103, 20000, 0, PowerUp),
    Trial(Images, 104, 20000, 0, PowerUp),
    Trial(Images, 105, 20000, 0, PowerUp),
    Trial(Images, 106, 20000, 0, PowerUp),
    Trial(Images, 107, 20000, 0, PowerUp),
    Trial(Images, 108, 20000, 0, PowerUp),
    Trial(Images, 109, 20000, 1, PowerUp),
    Trial(Images, 112, 20000, 1, PowerUp),
    Trial(Images, 113, 20000, 0, NearTheLargest),
    Trial(Images, 114, 20000, 1, NearTheLargest),
    Trial(Pairs, 201, 20000, 0, PowerUp),
    Trial(Pairs, 202, 20000, 1, PowerUp),
    Trial(Pairs, 379, 20000, 1, NearTheLargest),
    Trial(Pairs, 204, 20000, 1, NearTheLargest),
    Trial(Pairs, 205, 20000, 0, PowerUp),
    Trial(Pairs, 206, 20000, 1, PowerUp),
    Trial(Pairs, 207, 20000, 0, NearTheLargest),
    Trial(Pairs, 280, 20000, 0, NearTheLargest),
];

// Pairs of lessons: in both one seat has the same events, and everything else differs.
use crate::buffers::{Buffer, RECORD, SEATS};
use crate::digest::Digest;
use crate::picks::Picker;
use crate::sides::Side;
use base::Whole;
use bench::Bench;
use records::Event;
use streams::Stream;

const BETWEEN_STOPS: u64 = 100;

const QUARTER: u32 = 1073741824;

const HALF: u32 = 2147483648;

// The one seat and its own stream, the two lessons, the picker, the digest, and the record on the shelf.
#[derive(Clone, Copy)]
pub(crate) struct Pair {
    pub seat: u8,
    own: Stream,
    pub left: Side,
    pub right: Side,
    pub picker: Picker,
    pub digest: Digest,
    pub shelf: [u8; RECORD],
}

fn image_of(bench: Bench) -> Buffer {
    let mut forgotten = Digest::START;
    Buffer::keep(&mut forgotten, bench, 0)
}

// "Its kind is 4 or less and its seat 7 or less."
fn names_a_seat(record: Whole) -> bool {
    record.kind < Event::MASTER_RESET && record.seat < SEATS
}

impl Pair {
    // The left bench is given, and the right but for its seat n: "the right bench is what is restored from that at place 0."
    fn start(seed: u32, set: u8, first: Bench, second: Bench) -> Pair {
        let seat = (seed % 8) as u8;
        let shelf = image_of(first).record(seat);
        let mut image = image_of(second);
        image.put(image.record_at(seat), &shelf);
        let second = image.restore(second).bench;
        let stream = |by| Stream::start(seed.wrapping_add(by), set);
        Pair {
            seat,
            own: stream(0),
            left: Side::start(seat, stream(QUARTER), first),
            right: Side::start(seat, stream(HALF), second),
            picker: Picker::start(seed),
            digest: Digest::START,
            shelf,
        }
    }

    // "It is given to the left and then to the right. Then, first for the left and then for the right."
    fn give_both(&mut self, record: Whole) {
        let of_left = self.left.give(&mut self.digest, record);
        let of_right = self.right.give(&mut self.digest, record);
        self.left.see_event(of_left);
        self.right.see_event(of_right);
    }

    // "The seat's own. One event is made with own." Where it is no event of the seat, it is given "to the left alone if the number of the turn is even, else to
    // the right alone."
    fn own_event(&mut self, rows: &streams::Rows, odd: bool) {
        let mut record = self.own.next(rows);
        if names_a_seat(record) {
            record.seat = self.seat;
            self.give_both(record);
        } else if record.kind == Event::MASTER_RESET {
            self.give_both(record);
        } else if odd {
            self.right.give(&mut self.digest, record);
        } else {
            self.left.give(&mut self.digest, record);
        }
    }

    // "l = pick(4)", and "m = pick(4)": the left's neighbours, then the right's.
    fn neighbours(&mut self, rows: &streams::Rows) {
        let l = self.picker.pick(3);
        let m = self.picker.pick(3);
        self.left.on(&mut self.digest, rows, l);
        self.right.on(&mut self.digest, rows, m);
    }

    fn on(&mut self, rows: &streams::Rows, count: u64) {
        for k in 0..count {
            self.own_event(rows, k % 2 == 1);
            self.neighbours(rows);
        }
    }
}

// The digest, the left sight and the right sight. A stop stands behind each hundred turns, so a turn is even or odd as its number since the last stop is.
pub(crate) fn digests(seed: u32, count: u64, set: u8, left: Bench, right: Bench) -> [Digest; 3] {
    let rows = streams::script_rows();
    let mut pair = Pair::start(seed, set, left, right);
    for _ in 0..count / BETWEEN_STOPS {
        pair.on(&rows, BETWEEN_STOPS);
        pair.stop();
    }
    pair.on(&rows, count % BETWEEN_STOPS);
    [pair.digest, pair.left.sight, pair.right.sight]
}

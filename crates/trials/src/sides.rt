// One of the two lessons of a pair: the stream of its neighbours, its bench, and the sight of the one seat.
use crate::buffers::{Buffer, SEATS};
use crate::digest::Digest;
use base::{Answer, Whole};
use bench::Bench;
use records::Event;
use streams::Stream;

const OTHERS: u8 = 7;

#[derive(Clone, Copy)]
pub(crate) struct Side {
    seat: u8,
    beside: Stream,
    bench: Bench,
    pub sight: Digest,
}

impl Side {
    pub(crate) fn start(seat: u8, beside: Stream, bench: Bench) -> Side {
        Side {
            seat,
            beside,
            bench,
            sight: Digest::START,
        }
    }

    // "Gives the record to the bench of that side and does step 1 of Digest, with that bench's output."
    pub(crate) fn give(&mut self, digest: &mut Digest, record: Whole) -> Answer {
        let outcome = self.bench.step(record);
        self.bench = outcome.bench;
        digest.add_outcome(outcome.answer, outcome.output);
        outcome.answer
    }

    // "If its kind is 4 or less and its seat is n, its seat becomes (n + 1 + value % 7) % 8, which is not n; if its kind is 5, its kind becomes 8." There n is
    // below 8; its remainder is taken so that this need not be shown.
    fn turned_away(&self, mut record: Whole) -> Whole {
        if record.kind == Event::MASTER_RESET {
            record.kind = Event::ACKNOWLEDGE;
        } else if record.kind < Event::MASTER_RESET && record.seat == self.seat {
            record.seat = (self.seat % SEATS + 1 + record.value % OTHERS) % SEATS;
        }
        record
    }

    // "So many events are made", each "turned away and given": those of its own neighbours.
    pub(crate) fn on(&mut self, digest: &mut Digest, rows: &streams::Rows, count: u8) {
        for _ in 0..count {
            let record = self.beside.next(rows);
            self.give(digest, self.turned_away(record));
        }
    }

    // "With line 1 where the interrupt output of seat n of that side's bench is high and 0 where it is low, and then five looks": the line stands where the
    // digest has the output.
    fn see(&mut self, answer: Answer) {
        let seat = self.bench.seats[bench::chair(self.seat)];
        self.sight.add_outcome(answer, seat.line());
        self.sight.add_five(seat.five());
    }

    // What is seen at an event of the seat's own; of a letter its figures too.
    pub(crate) fn see_event(&mut self, answer: Answer) {
        self.see(answer);
        self.sight.add(streams::letter_mark(answer));
    }

    // "look(byte) for the 86 bytes of seat n's record in its image, first to last."
    pub(crate) fn save(&mut self, digest: &mut Digest, at: u8) -> Buffer {
        let image = Buffer::keep(digest, self.bench, at);
        for byte in image.record(self.seat) {
            self.sight.add(byte as u32);
        }
        image
    }

    // "Restored at place p, with length 760", over its bench, with "add(the number)"; and "see(side, 0) where the number is 0, else see(side, 1)": a byte is
    // its own value.
    pub(crate) fn restore(&mut self, digest: &mut Digest, image: &Buffer) {
        let read = image.restore(self.bench);
        let number = read.answer.refusal();
        self.bench = read.bench;
        self.see(Answer::Byte((number > 0) as u8));
        digest.add(number as u32);
    }
}

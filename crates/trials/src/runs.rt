// Events of a stream over a bench, and the digests of what is seen.
use crate::digest::Digest;
use base::{Answer, Whole};
use bench::Bench;
use records::Event;
use streams::Stream;

// "for line 8 it is refusal 1 and answer FFF": one line more than there are.
pub(crate) const ASKED_LINES: u8 = 9;

// Twice as many as there are, so that every other one that is asked for is refused.
const ASKED_SEATS: u8 = 16;

// A stream, the bench that its events were given to, the digest, the letter digest and the tally digest, at some point of a trial.
#[derive(Clone, Copy)]
pub(crate) struct Run {
    pub stream: Stream,
    pub bench: Bench,
    pub digest: Digest,
    letters: Digest,
    tallies: Digest,
}

// The bench stays where it is: an event is given the seat that it names and the controller, and both are stored back; of a master reset,
// over seats that are all reset.
fn give(bench: &mut Bench, record: Whole) -> Answer {
    let at = bench::chair(record.seat);
    let touched = records::step_parts(bench.seats[at], bench.controller, record);
    if record.kind == Event::MASTER_RESET {
        bench.seats = bench::reset_all(bench.seats);
    }
    bench.seats[at] = touched.seat;
    bench.controller = touched.controller;
    touched.answer
}

impl Run {
    pub(crate) fn start(seed: u32, set: u8, bench: Bench) -> Run {
        Run {
            stream: Stream::start(seed, set),
            bench,
            digest: Digest::START,
            letters: Digest::START,
            tallies: Digest::START,
        }
    }

    // "Let q be the seat byte of the record % 16": the tallies of seat q are asked, and refused where there is none.
    fn add_tallies(&mut self, seat: u8) {
        match self.bench.tallies(seat % ASKED_SEATS) {
            Ok(five) => {
                self.tallies.add(0);
                self.tallies.add_five(five);
            }
            Err(refusal) => self.tallies.add(refusal.number() as u32),
        }
    }

    fn event(&mut self, rows: &streams::Rows, lines: u8) {
        let record = self.stream.next(rows);
        let answer = give(&mut self.bench, record);
        let controller = self.bench.controller;
        self.digest.add_outcome(answer, controller.output());
        self.digest.add_places(controller, lines);
        self.letters.add(streams::letter_mark(answer));
        self.add_tallies(record.seat);
    }

    // So many events more.
    pub(crate) fn on(&mut self, rows: &streams::Rows, count: u64, lines: u8) {
        for _ in 0..count {
            self.event(rows, lines);
        }
    }

    // "The digest, the letter digest and the tally digest."
    pub(crate) fn digests(&self) -> [Digest; 3] {
        [self.digest, self.letters, self.tallies]
    }
}

// The bench is the one that the stream starts from.
pub(crate) fn digests(seed: u32, count: u64, set: u8, bench: Bench) -> [Digest; 3] {
    let rows = streams::script_rows();
    let mut run = Run::start(seed, set, bench);
    run.on(&rows, count, ASKED_LINES);
    run.digests()
}

// A run over the bytes of some records.
ghost use Rattle.std.specs.Prelude.{◌≡◌, ◌-◌, ◌*◌, min};
ghost use Rattle.listing.specs.Run.{Runs, number_end};

use crate::front::Front;
use crate::{RECORD_BYTES, Ran, held};
use base::Answer;
use bench::Bench;

// So many records, but none whose number would not fit.
fn numbered(records: usize, n: u64) -> usize
    ensures { result ≡ min records (number_end - n) }
{
    let behind = (u64::MAX - n) as usize;
    records.min(behind.saturating_add(1))
}

// The bytes of so many records, of which the input may cut off the last.
fn used(records: usize, bytes: usize) -> usize
    ensures { result ≡ min (4 * records) bytes }
{
    RECORD_BYTES.saturating_mul(records).min(bytes)
}

// Answers the records of `input`, of which the first has number n, and puts their lines at the start of `out`. It stops before
// a record whose line does not fit or whose number would not fit 64 bits. `last` tells that the input ends there.
pub fn run(mut bench: Bench, n: u64, input: &[u8], last: bool, out: &mut [u8]) -> Ran
    ensures { Runs bench n input.now last out.old out.new result }
{
    let end = numbered(held::record_count(input.len(), last), n);
    let mut records: usize = 0;
    let mut written: usize = 0;
    let mut front = Front::of(n);
    let mut latest = Answer::Done;
    for k in 0..end {
        let m = n + k as u64;
        front.keep(m);
        let held = held::record_at(input, RECORD_BYTES * k);
        let at = held::chair(held);
        let met = held::meet(bench.seats[at], bench.controller, held);
        let high = met.controller.output();
        let next = text::put_after(&mut *out, written, front.shown(), m, met.answer, high);
        if next == written {
            break;
        }
        if held::resets(held) {
            bench.seats = bench::reset_all(bench.seats);
        }
        bench.seats[at] = met.seat;
        bench.controller = met.controller;
        latest = met.answer;
        written = next;
        records += 1;
    }
    Ran {
        bench,
        answer: latest,
        records,
        used: used(records, input.len()),
        written,
    }
}

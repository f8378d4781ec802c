// The bench for the control software, which is written in C: the caller holds a bench and lends it for a call.
// A function over a lent bench copies out what its call touches, calls a function by value, stores what came back, and does nothing else.
#![tactic(auto)]

mod images;
mod settings;

ghost use Rattle.std.specs.Prelude.{◌≡◌, false};
ghost use Rattle.base.specs.Bits.{digit};
ghost use Rattle.base.specs.Refusals.{number_of};
ghost use Rattle.base.specs.declared.Answer.TheVariants.{Refused};
ghost use Rattle.rates.specs.Rates.{divisor_of};
ghost use Rattle.controller.specs.Steps.{placed};
ghost use Rattle.controller.specs.Turns.{output_of};
ghost use Rattle.records.specs.Events.{whole};
ghost use Rattle.records.specs.declared.Event.TheVariants.{MasterReset};
ghost use Rattle.bench.specs.Seats.{power_up};
ghost use Rattle.bench.specs.Parts.{partly};
ghost use Rattle.bench.specs.Steps.{met, outcome};
ghost use Rattle.bench.specs.Tallies.{tallies_of};
ghost use Rattle.c_word.specs.Word.{Tells};
ghost use Rattle.c_bench.specs.Told.{Told};
ghost use Rattle.c_bench.specs.Parts.{asked_for};
ghost use Rattle.c_bench.specs.Outputs.{outputs_at};
ghost use Rattle.embed.specs.Version.{version};
ghost use Rattle.embed.specs.Bytes.{bench_bytes};

use base::{Answer, Refusal};
use bench::Bench;
use c_bench::Asked;
pub use images::{hailstoat_restore, hailstoat_save};
use records::Event;
use seat::Five;
pub use settings::{hailstoat_read_setting, hailstoat_write_setting};

const MASTER_RESET: u32 = Event::MASTER_RESET as u32;

const VERSION: u32 = 30100;

const BENCH_BYTES: usize = 812;

// What a seat that is not there has.
const NO_FIVE: Five = Five {
    arrived: 0,
    read: 0,
    lost: 0,
    dropped: 0,
    queued: 0,
};

fn refused(refusal: Refusal) -> u64
    ensures { Tells result (Refused (number_of refusal)) false }
{
    c_word::word(Answer::Refused(refusal.number()), false)
}

// The version, to compare with the header's.
pub fn hailstoat_version() -> u32
    ensures { result ≡ version }
{
    VERSION
}

// The bytes that the caller's bench must have.
pub fn hailstoat_size() -> usize
    ensures { result ≡ bench_bytes }
{
    BENCH_BYTES
}

// The divisor for a rate in tenths of a baud.
pub fn hailstoat_divisor(rate: u32, clock: u32) -> u64
    ensures { Tells result (divisor_of rate clock) false }
{
    c_word::word(rates::divisor(rate, c_word::as_byte(clock)), false)
}

pub fn hailstoat_power_up(bench: &mut Bench)
    ensures { bench.new ≡ power_up }
{
    *bench = Bench::power_up();
}

// A master reset takes the bench out whole, and stores it whole.
fn reset_event(bench: &mut Bench) -> u64
    ensures { (bench.new ≡ (met bench.old MasterReset).bench) × Told result (met bench.old MasterReset) }
{
    let p = c_bench::reset(*bench);
    *bench = p.bench;
    p.word
}

// The seat that the record names and the controller are taken out, and stored where they lie: the rest of the bench is not moved.
// The chair is worked out here, which is less to walk by hand than a call.
fn seat_event(bench: &mut Bench, asked: Asked) -> u64
    ensures { (bench.new ≡ (partly bench.old (asked_for asked)).bench) × Told result (partly bench.old (asked_for asked)) }
{
    let at = asked.seat as usize % records::SEATS;
    let held = &mut bench.seats[at];
    let p = c_bench::parts(*held, bench.controller, asked);
    *held = p.seat;
    bench.controller = p.controller;
    p.word
}

// One record; the word has its refusal, its answer with the figures of a character that was read, and the output after it.
pub fn hailstoat_event(bench: &mut Bench, kind: u32, seat: u32, number: u32, value: u8) -> u64
    ensures { (bench.new ≡ (outcome bench.old (whole kind seat number value)).bench)
        × Told result (outcome bench.old (whole kind seat number value)) }
{
    if kind == MASTER_RESET {
        return reset_event(bench);
    }
    let asked = Asked {
        kind,
        seat,
        number,
        value,
    };
    seat_event(bench, asked)
}

// The place in turn of a line.
pub fn hailstoat_place(bench: &Bench, line: u32) -> u64
    ensures { Tells result (placed bench.now.controller line) false }
{
    c_word::word(bench.controller.place(c_word::as_byte(line)), false)
}

// 1 where the controller's output is high, else 0.
pub fn hailstoat_output(bench: &Bench) -> u8
    ensures { result ≡ digit (output_of bench.now.controller) }
{
    u8::from(bench.controller.output())
}

// The modem outputs of a seat: DTR, RTS, OUT1 and OUT2 as bits 0 to 3.
pub fn hailstoat_modem_outputs(bench: &Bench, seat: u32) -> u64
    ensures { Tells result (outputs_at bench.now seat) false }
{
    let at = seat as usize % records::SEATS;
    c_bench::seat_outputs(bench.seats[at], seat)
}

// The five tallies of a seat, stored where the caller asks; nothing of the bench is moved.
pub fn hailstoat_tallies(bench: &Bench, seat: u32, out: &mut Five) -> u64
    ensures { (out.new ≡ (tallies_of bench.now seat).five) × Tells result (tallies_of bench.now seat).answer false }
{
    let at = seat as usize % records::SEATS;
    match bench::tallies_by(bench.seats[at], seat) {
        Ok(five) => {
            *out = five;
            c_word::word(Answer::Done, false)
        }
        Err(refusal) => {
            *out = NO_FIVE;
            refused(refusal)
        }
    }
}

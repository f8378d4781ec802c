// What C does to a bench, by value, each with the word that tells of it: a record, on the parts that it can touch, a save, and a restore; and the modem outputs that it asks for.
#![tactic(auto)]

mod outputs;

ghost use Rattle.std.specs.Prelude.{◌≡◌};
ghost use Rattle.records.specs.Parts.{parted};
ghost use Rattle.records.specs.declared.Event.TheVariants.{MasterReset};
ghost use Rattle.bench.specs.Steps.{met};
ghost use Rattle.image.specs.Items.{restores, item_outcome};
ghost use Rattle.c_bench.specs.Told.{Plays, SavesTold};
ghost use Rattle.c_bench.specs.Parts.{Parted, asked_for, bytes_of};

use base::Whole;
use bench::Bench;
use controller::Controller;
pub use outputs::seat_outputs;
use seat::Seat;

// A bench after what was done to it, and the word that tells of it.
#[derive(Clone, Copy)]
pub struct Played {
    pub bench: Bench,
    pub word: u64,
}

// A seat and the controller after a record, and the word that tells of it.
#[derive(Clone, Copy)]
pub struct PartsPlayed {
    pub seat: Seat,
    pub controller: Controller,
    pub word: u64,
}

// A record in C's numbers, which has them in 32 bits.
#[derive(Clone, Copy)]
pub struct Asked {
    pub kind: u32,
    pub seat: u32,
    pub number: u32,
    pub value: u8,
}

impl Asked {
    fn bytes(self) -> Whole
        ensures { result ≡ bytes_of self }
    {
        Whole {
            kind: c_word::as_byte(self.kind),
            seat: c_word::as_byte(self.seat),
            number: c_word::as_byte(self.number),
            value: self.value,
        }
    }
}

// The one record that touches every seat.
pub fn reset(b: Bench) -> Played
    ensures { Plays result (met b MasterReset) }
{
    let o = b.reset();
    Played {
        bench: o.bench,
        word: c_word::word(o.answer, o.output),
    }
}

// Any record but a master reset, on the two parts that it can touch.
pub fn parts(seat: Seat, controller: Controller, asked: Asked) -> PartsPlayed
    ensures { Parted result (parted seat controller (asked_for asked)) }
{
    let t = records::step_parts(seat, controller, asked.bytes());
    PartsPlayed {
        seat: t.seat,
        controller: t.controller,
        word: c_word::word(t.answer, t.controller.output()),
    }
}

// A save asks and changes nothing of the bench, so the word has no output.
pub fn save(b: Bench, buffer: &mut [u8], place: usize) -> u64
    ensures { SavesTold b place buffer.old buffer.new result }
{
    let answer = image::save(b, &mut *buffer, place);
    c_word::word(answer, false)
}

// A restore happens to the bench as an event does, so the word has the output after it.
pub fn restore(b: Bench, buffer: &[u8], place: usize) -> Played
    ensures { Plays result (item_outcome b (restores buffer.now place)) }
{
    let o = image::restore(b, buffer, place);
    let next = o.bench;
    Played {
        bench: next,
        word: c_word::word(o.answer, next.controller.output()),
    }
}

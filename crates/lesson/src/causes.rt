// What a fault is told as, and where.
ghost use Rattle.std.specs.Prelude.{◌≡◌, ◌≤◌, length};
ghost use Rattle.lesson.specs.Fault.{start, behind};
ghost use Rattle.lesson.specs.Cause.{character_at, marked, wide, alien, begins, begun_in, stopped_at, finding};

use crate::faults::{Reading, START};
use crate::{Cause, characters};

// A fault as it is told: how many characters stand before it, and its cause.
#[derive(Clone, Copy)]
pub(crate) struct Finding {
    pub(crate) at: usize,
    pub(crate) cause: Cause,
}

// Where reading stands behind some characters, and how many of them stand before the record that was begun last.
#[derive(Clone, Copy)]
struct Behind {
    reading: Reading,
    begun: usize,
}

pub(crate) fn character_at(text: &[u8], at: usize) -> u8
    ensures { result ≡ character_at text.now at }
{
    text.get(at).copied().unwrap_or(b' ')
}

#[tactic(auto, using(std::proofs::lemmas::Bool::Decides::nat_tests, std::proofs::lemmas::Grind::get_or_default_zero, std::proofs::lemmas::List::get_or_past), unfolding(crate::specs::Cause::marked))]
fn is_marked(text: &[u8]) -> bool
    ensures { result ≡ marked text.now }
{
    matches!(text, [0xEF, 0xBB, 0xBF, ..])
}

#[tactic(auto, using(std::proofs::lemmas::Bool::Decides::nat_tests, std::proofs::lemmas::Grind::get_or_default_zero, std::proofs::lemmas::List::get_or_past), unfolding(crate::specs::Cause::wide))]
fn is_wide(text: &[u8]) -> bool
    ensures { result ≡ wide text.now }
{
    matches!(
        text,
        [0xFF, 0xFE, ..] | [0xFE, 0xFF, ..] | [0, ..] | [_, 0, ..]
    )
}

fn is_alien(c: u8) -> bool
    ensures { result ≡ alien c }
{
    text::digit(c).is_none() & !characters::is_apart(c)
}

impl Reading {
    fn begins(self, c: u8) -> bool
        ensures { result ≡ begins self c }
    {
        !self.comment & (self.digits == 0) & text::digit(c).is_some()
    }
}

fn begun_behind(text: &[u8]) -> Behind
    ensures { (result.reading ≡ behind start text.now) × (result.begun ≡ begun_in text.now) }
{
    let mut reading = START;
    let mut begun: usize = 0;
    for (i, c) in text.iter().enumerate() {
        if reading.begins(*c) {
            begun = i;
        }
        reading = reading.after(*c);
    }
    Behind { reading, begun }
}

fn stopped_at(text: &[u8], at: usize) -> Finding
    requires { at ≤ length text.now }
    ensures { result ≡ stopped_at text.now at }
{
    if is_alien(character_at(text, at)) {
        return Finding {
            at,
            cause: Cause::NoDigit,
        };
    }
    let behind = begun_behind(&text[..at]);
    let reading = behind.reading;
    if reading.digits % 2 == 1 {
        return Finding {
            at: at - 1,
            cause: Cause::OneDigit,
        };
    }
    Finding {
        at: behind.begun,
        cause: Cause::ShortRecord(reading.digits / 2),
    }
}

// A fault that reading has found behind so many characters.
pub(crate) fn find(text: &[u8], at: usize) -> Finding
    requires { at ≤ length text.now }
    ensures { result ≡ finding text.now at }
{
    if is_marked(text) {
        return Finding {
            at: 0,
            cause: Cause::ByteOrderMark,
        };
    }
    if is_wide(text) {
        return Finding {
            at: 0,
            cause: Cause::Utf16,
        };
    }
    stopped_at(text, at)
}

// What a seat refuses, event by event, by the settings of its channel: the first refusal of the order whose condition holds.
ghost use Rattle.std.specs.Prelude.{◌≡◌};
ghost use Rattle.base.specs.Refusals.{number_given};
ghost use Rattle.registers.specs.Refusals.{refusal};
ghost use Rattle.registers.specs.declared.SeatEvent.TheVariants.{Read, Write, Arrival, Levels, Time};

use crate::{Register, SeatEvent, Settings, modem};
use base::Refusal;

#[tactic(auto, unfolding(crate::specs::Refusals::refusal, crate::specs::Refusals::grounds, base::specs::Refusals::refusal_by, base::specs::Refusals::first_of, base::specs::Refusals::number_given, base::specs::Refusals::number_of, base::specs::Pick::pick))]
impl Settings {
    // Whatever the settings are, and whatever is written: a register is refused for its number alone.
    fn refuse_access(number: u8) -> Option<Refusal>
        ensures { (settings : _) → (number_given result ≡ refusal settings (Read number)) × ((byte : _) → number_given result ≡ refusal settings (Write number byte)) }
    {
        (Register::SCRATCH < number).then_some(Refusal::NumberAbove)
    }

    fn refuse_arrival(self, marks: u8, byte: u8) -> Option<Refusal>
        ensures { number_given result ≡ refusal self (Arrival marks byte) }
    {
        if self.no_divisor() {
            return Some(Refusal::NoDivisor);
        }
        if base::ALL_MARKS < marks {
            return Some(Refusal::MarksAbove);
        }
        if self.is_beyond_word(byte) {
            return Some(Refusal::BeyondWord);
        }
        if self.is_parity_unasked(marks) {
            return Some(Refusal::ParityUnasked);
        }
        if Settings::is_break_with_data(marks, byte) {
            return Some(Refusal::BreakWithData);
        }
        None
    }

    fn refuse_levels(levels: u8) -> Option<Refusal>
        ensures { (settings : _) → number_given result ≡ refusal settings (Levels levels) }
    {
        (modem::ALL_LEVELS < levels).then_some(Refusal::LevelsAbove)
    }

    fn refuse_time(self) -> Option<Refusal>
        ensures { number_given result ≡ refusal self Time }
    {
        self.no_divisor().then_some(Refusal::NoDivisor)
    }

    pub fn refusal(self, e: SeatEvent) -> Option<Refusal>
        ensures { number_given result ≡ refusal self e }
    {
        match e {
            SeatEvent::Read(number) | SeatEvent::Write(number, _) => Settings::refuse_access(
                number,
            ),
            SeatEvent::Arrival(marks, byte) => self.refuse_arrival(marks, byte),
            SeatEvent::Levels(levels) => Settings::refuse_levels(levels),
            SeatEvent::Time => self.refuse_time(),
        }
    }
}

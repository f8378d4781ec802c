// From the four bytes of a record to its event.
ghost use Rattle.std.specs.Prelude.{◌≡◌};
ghost use Rattle.records.specs.Events.{event_of, Decodes};

use crate::{Event, SEATS};
use base::{Refusal, Whole};
use registers::SeatEvent;

#[tactic(auto, using(base::specs::PickLaws::tests), unfolding(crate::specs::Events::event_of))]
fn event_of(whole: Whole) -> Event
    ensures { result ≡ event_of whole.kind whole.seat whole.number whole.value }
{
    let Whole {
        kind,
        seat,
        number,
        value,
    } = whole;
    match kind {
        Event::READ_REGISTER => Event::OfSeat(seat, SeatEvent::Read(number)),
        Event::WRITE_REGISTER => Event::OfSeat(seat, SeatEvent::Write(number, value)),
        Event::ARRIVAL => Event::OfSeat(seat, SeatEvent::Arrival(number, value)),
        Event::MODEM_INPUTS => Event::OfSeat(seat, SeatEvent::Levels(value)),
        Event::CHARACTER_TIME => Event::OfSeat(seat, SeatEvent::Time),
        Event::MASTER_RESET => Event::MasterReset,
        Event::READ_CONTROLLER => Event::ReadController(number),
        Event::WRITE_CONTROLLER => Event::WriteController(number, value),
        _ => Event::Acknowledge,
    }
}

impl TryFrom<Whole> for Event {
    type Error = Refusal;

    ghost try_from_gives = { Decodes };

    // The kinds before a master reset use the seat.
    fn try_from(whole: Whole) -> Result<Event, Refusal> {
        if Event::ACKNOWLEDGE < whole.kind {
            return Err(Refusal::KindAbove);
        }
        if (whole.kind < Event::MASTER_RESET) & (SEATS <= whole.seat as usize) {
            return Err(Refusal::SeatAbove);
        }
        Ok(event_of(whole))
    }
}

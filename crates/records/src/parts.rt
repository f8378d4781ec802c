// One record on one seat and the controller. The bench is not needed for it, and is not moved.
ghost use Rattle.std.specs.Prelude.{◌≡◌};
ghost use Rattle.records.specs.Events.{record_of, short};
ghost use Rattle.records.specs.Parts.{touched, besides, met_parts, parted};

use crate::{Event, Touched};
use base::{Answer, Refusal, Whole};
use controller::{Controller, Signalled};
use registers::SeatEvent;
use seat::Seat;

// A seat that refuses leaves the controller unasked. What its step gave is kept either way: the old seat need not be kept beside it.
fn touch_seat(seat: Seat, controller: Controller, n: u8, e: SeatEvent) -> Touched
    ensures { result ≡ touched seat controller n e }
{
    let stepped = seat.step(e);
    let answer = stepped.answer;
    let next = stepped.seat;
    if answer.refusal() == 0 {
        let levels = rank::with_line(controller.lines.levels, n, next.line());
        let settled = controller.settle(levels);
        return Touched {
            seat: next,
            controller: settled,
            answer,
        };
    }
    Touched {
        seat: next,
        controller,
        answer,
    }
}

// The controller is asked, and the seat is not.
fn beside(seat: Seat, signalled: Signalled) -> Touched
    ensures { result ≡ besides seat signalled }
{
    let Signalled { controller, answer } = signalled;
    Touched {
        seat,
        controller,
        answer,
    }
}

// Of a master reset, what it makes of this seat; every line is low after it. Each arm returns by itself: a value that all arms join in is copied once
// more in every event.
#[tactic(auto, unfolding(crate::specs::Parts::met_parts))]
fn meet_parts(seat: Seat, controller: Controller, event: Event) -> Touched
    ensures { result ≡ met_parts seat controller event }
{
    match event {
        Event::OfSeat(n, e) => return touch_seat(seat, controller, n, e),
        Event::MasterReset => return Touched {
            seat: seat.reset(),
            controller: controller.settle(0),
            answer: Answer::Done,
        },
        Event::ReadController(port) => return Touched {
            seat,
            controller,
            answer: controller.read(port),
        },
        Event::WriteController(port, byte) => return beside(seat, controller.write(port, byte)),
        Event::Acknowledge => return beside(seat, controller.acknowledge()),
    }
}

// "The order is 4, 3, 1, 2": a record that is no event leaves with its refusal.
pub fn step_parts(seat: Seat, controller: Controller, whole: Whole) -> Touched
    ensures { result ≡ parted seat controller (record_of whole) }
{
    let decoded = Event::try_from(whole);
    let Ok(event) = decoded else {
        let number = decoded.err().map_or(0, |refusal| refusal.number());
        return Touched {
            seat,
            controller,
            answer: Answer::Refused(number),
        };
    };
    meet_parts(seat, controller, event)
}

// A record of one to three bytes at the end of input.
pub fn short_parts(seat: Seat, controller: Controller) -> Touched
    ensures { result ≡ parted seat controller short }
{
    Touched {
        seat,
        controller,
        answer: Answer::Refused(Refusal::Short.number()),
    }
}

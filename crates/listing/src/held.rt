// The records where they stand in the input, and each on the parts that it touches.
ghost use Rattle.std.specs.Prelude.{◌≡◌, ◌<◌, length};
ghost use Rattle.records.specs.Events.{seat_named, resets};
ghost use Rattle.records.specs.Parts.{parted};
ghost use Rattle.bench.specs.Seats.{chair};
ghost use Rattle.listing.specs.Places.{record_at, record_count};
ghost use Rattle.listing.specs.Held.{held_record};

use crate::RECORD_BYTES;
use base::Whole;
use controller::Controller;
use records::{Event, Touched};
use seat::Seat;

pub(crate) fn record_count(bytes: usize, last: bool) -> usize
    ensures { result ≡ record_count last bytes }
{
    if last {
        return bytes.div_ceil(RECORD_BYTES);
    }
    bytes / RECORD_BYTES
}

// The record that stands at `at`; of one that the input cuts off there are not all bytes.
pub(crate) fn record_at(input: &[u8], at: usize) -> Option<Whole>
    requires { at < length input.now }
    ensures { held_record result ≡ record_at input.now at }
{
    let &[kind, seat, number, value, ..] = &input[at..] else {
        return None;
    };
    Some(Whole {
        kind,
        seat,
        number,
        value,
    })
}

// The chair of its seat; one that is cut off names none, and any chair serves.
pub(crate) fn chair(held: Option<Whole>) -> usize
    ensures { result ≡ chair (seat_named (held_record held)) }
{
    held.map_or(0, |whole| bench::chair(whole.seat))
}

pub(crate) fn resets(held: Option<Whole>) -> bool
    ensures { result ≡ resets (held_record held) }
{
    held.is_some_and(|whole| whole.kind == Event::MASTER_RESET)
}

// What it makes of its seat and the controller.
pub(crate) fn meet(seat: Seat, controller: Controller, held: Option<Whole>) -> Touched
    ensures { result ≡ parted seat controller (held_record held) }
{
    match held {
        Some(whole) => records::step_parts(seat, controller, whole),
        None => records::short_parts(seat, controller),
    }
}

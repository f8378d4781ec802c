// What a record did, by its kind.
ghost use Rattle.std.specs.Prelude.{◌≡◌};
ghost use Rattle.page.specs.Pieces.{piece};
ghost use Rattle.records.specs.Events.{record_of};
ghost use Rattle.deeds.specs.Done.{seat_done, other_done, record_done, cut_done};

use crate::{places, ports};
use base::Whole;
use controller::Controller;
use page::Piece;
use records::Event;

fn at_seat(whole: Whole, divisor: bool) -> Piece
    ensures { result ≡ piece (seat_done whole.kind whole.seat whole.number whole.value divisor) }
{
    let Whole {
        kind,
        seat,
        number,
        value,
    } = whole;
    match kind {
        Event::READ_REGISTER => places::read(seat, number, divisor),
        Event::WRITE_REGISTER => places::write(seat, number, value, divisor),
        Event::ARRIVAL => places::arrival(seat, number, value),
        Event::MODEM_INPUTS => places::levels(seat, value),
        _ => places::time(seat),
    }
}

fn elsewhere(whole: Whole, controller: Controller) -> Piece
    ensures { result ≡ piece (other_done whole.kind whole.number whole.value controller) }
{
    match whole.kind {
        Event::MASTER_RESET => Piece::empty().text(b"master reset of all eight seats"),
        Event::READ_CONTROLLER => ports::read(whole.number, controller.operation.selected),
        Event::WRITE_CONTROLLER => {
            ports::write(whole.number, whole.value, controller.setup.stage)
        }
        Event::ACKNOWLEDGE => Piece::empty().text(b"acknowledge"),
        _ => Piece::empty()
            .text(b"a record of kind ")
            .decimal(whole.kind as u64),
    }
}

// A record of four bytes, the divisor reached by it or not, at a controller as it stood before.
pub fn done(whole: Whole, divisor: bool, controller: Controller) -> Piece
    ensures { result ≡ piece (record_done (record_of whole) divisor controller) }
{
    if whole.kind < Event::MASTER_RESET {
        return at_seat(whole, divisor);
    }
    elsewhere(whole, controller)
}

// A record of one to three bytes at the end.
pub fn cut() -> Piece
    ensures { result ≡ piece cut_done }
{
    Piece::empty().text(b"a record cut off")
}

// The seats of a bench: where one of them stands, and what concerns all of them.
ghost use Rattle.std.specs.Prelude.{◌≡◌, map};
ghost use Rattle.seat.specs.Seats.{reset};
ghost use Rattle.bench.specs.Seats.{chair as Seats·chair};

use records::SEATS;
use seat::Seat;

// In place: `map` moves all the seats several times.
pub fn reset_all(mut seats: [Seat; SEATS]) -> [Seat; SEATS]
    ensures { result ≡ map reset seats }
{
    for seat in &mut seats {
        *seat = seat.reset();
    }
    seats
}

// Where seat n stands; a number that is no seat's counts round.
pub fn chair(n: u8) -> usize
    ensures { result ≡ Seats·chair n }
{
    n as usize % SEATS
}

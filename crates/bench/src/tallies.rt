// What became of the characters that a seat received, for a teacher who asks. It is no event, and the bench stays as it is.
ghost use Rattle.std.specs.Prelude.{◌≡◌};
ghost use Rattle.bench.specs.Tallies.{asked_by, asked_of};

use crate::{Bench, seats};
use base::Refusal;
use records::SEATS;
use seat::{Five, Seat};

// The seat of that number, in a caller's own hands; of a number that no seat has, nothing is told of any.
pub fn tallies_by(held: Seat, n: u32) -> Result<Five, Refusal>
    ensures { result ≡ asked_by held n }
{
    if SEATS <= n as usize {
        return Err(Refusal::SeatAbove);
    }
    Ok(held.five())
}

impl Bench {
    pub fn tallies(self, n: u8) -> Result<Five, Refusal>
        ensures { result ≡ asked_of self n }
    {
        tallies_by(self.seats[seats::chair(n)], n as u32)
    }
}

// Eight seats and the controller: one record at a time.
#![tactic(auto)]

use base::Answer;
use controller::Controller;
use records::SEATS;
use seat::Seat;

mod seats;
mod steps;
mod tallies;

ghost use Rattle.std.specs.Prelude.{◌≡◌};
ghost use Rattle.bench.specs.Seats.{power_up};

pub use seats::{chair, reset_all};
pub use tallies::tallies_by;

#[repr(C)]
#[derive(Clone, Copy)]
pub struct Bench {
    pub seats: [Seat; SEATS],
    pub controller: Controller,
}

#[derive(Clone, Copy)]
pub struct Outcome {
    pub bench: Bench,
    pub answer: Answer,
    pub output: bool,
}

impl Bench {
    pub fn power_up() -> Bench
        ensures { result ≡ power_up }
    {
        Bench {
            seats: [Seat::power_up(); SEATS],
            controller: Controller::power_up(),
        }
    }
}

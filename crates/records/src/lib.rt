// A record of four bytes, and what it makes of the seat that it names and the controller.
#![tactic(auto)]

use base::Answer;
use controller::Controller;
use registers::SeatEvent;
use seat::Seat;

mod events;
mod parts;

pub use parts::{short_parts, step_parts};

// The number of seats stands here, and in the definitions as `seat_count`.
pub const SEATS: usize = 8;

#[derive(Clone, Copy)]
pub enum Event {
    OfSeat(u8, SeatEvent),
    MasterReset,
    ReadController(u8),
    WriteController(u8, u8),
    Acknowledge,
}

// The kinds by name: document 01's numbers.
impl Event {
    pub const READ_REGISTER: u8 = 0;

    pub const WRITE_REGISTER: u8 = 1;

    pub const ARRIVAL: u8 = 2;

    pub const MODEM_INPUTS: u8 = 3;

    pub const CHARACTER_TIME: u8 = 4;

    pub const MASTER_RESET: u8 = 5;

    pub const READ_CONTROLLER: u8 = 6;

    pub const WRITE_CONTROLLER: u8 = 7;

    pub const ACKNOWLEDGE: u8 = 8;
}

// A record works on these parts alone, but a master reset, which touches the other seats too.
#[derive(Clone, Copy)]
pub struct Touched {
    pub seat: Seat,
    pub controller: Controller,
    pub answer: Answer,
}

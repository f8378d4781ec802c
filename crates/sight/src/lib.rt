// What a timeline shows of a bench, and of which seats.
#![tactic(auto)]

ghost use Rattle.std.specs.Prelude.{◌≡◌, get_or};
ghost use Rattle.base.specs.ListLaws.{listed};
ghost use Rattle.seat.specs.Seats.{no_seat};
ghost use Rattle.sight.specs.Sights.{look_of, sight_of, look_at};
ghost use Rattle.sight.specs.InUse.{with_named};

use bench::Bench;
use records::{Event, SEATS};
use seat::Seat;

// What is seen of a seat.
#[derive(Clone, Copy)]
pub struct Look {
    pub lsr: u8,
    pub queued: u8,
}

// What is seen of a bench. A set of lines is a byte: line n is its bit n.
#[derive(Clone, Copy)]
pub struct Sight {
    pub output: bool,
    pub levels: u8,
    pub requests: u8,
    pub service: u8,
    pub mask: u8,
    pub seats: [Look; SEATS],
}

fn seen(seat: Seat) -> Look
    ensures { result ≡ look_of seat }
{
    let channel = seat.channel;
    let fifo = channel.settings.is_fifo();
    Look {
        lsr: status::lsr(fifo, channel.receiver, channel.transmitter),
        queued: channel.receiver.queue.count,
    }
}

fn all_seen(s: [Seat; SEATS]) -> [Look; SEATS]
    ensures { result ≡ listed 8 (λ n. look_of (get_or s n no_seat)) }
{
    s.map(seen)
}

impl Sight {
    pub fn of(bench: Bench) -> Sight
        ensures { result ≡ sight_of bench }
    {
        let controller = bench.controller;
        let seats = bench.seats;
        Sight {
            output: controller.output(),
            levels: controller.lines.levels,
            requests: controller.requests(),
            service: controller.operation.service,
            mask: controller.operation.mask,
            seats: all_seen(seats),
        }
    }

    // A number that is no seat's counts round.
    pub fn look_at(self, n: u8) -> Look
        ensures { result ≡ look_at self n }
    {
        self.seats[bench::chair(n)]
    }
}

// The seats in use, with the one that a record names.
pub fn named(used: u8, kind: u8, seat: u8) -> u8
    ensures { result ≡ with_named used kind seat }
{
    if (kind < Event::MASTER_RESET) & !(SEATS <= seat as usize) {
        return used | rank::only(seat);
    }
    used
}

// One seat of the bench: a channel, and beside it the tallies of what it received. The rooms above deal in seats and open none.
#![tactic(auto)]

use base::Answer;
use channel::Channel;

mod counting;
mod events;

ghost use Rattle.std.specs.Prelude.{◌≡◌};
ghost use Rattle.seat.specs.Seats.{power_up, reset, line, five};

// "five 32-bit tallies of received characters since power-up"
#[repr(C)]
#[derive(Clone, Copy, Default)]
pub struct Tallies {
    pub arrived: u32,
    pub read: u32,
    pub lost: u32,
    pub dropped: u32,
}

// All five, as they are handed out.
#[repr(C)]
#[derive(Clone, Copy)]
pub struct Five {
    pub arrived: u32,
    pub read: u32,
    pub lost: u32,
    pub dropped: u32,
    pub queued: u32,
}

#[repr(C)]
#[derive(Clone, Copy)]
pub struct Seat {
    pub tallies: Tallies,
    pub channel: Channel,
}

// The seat after an event, and what the event was answered with.
#[derive(Clone, Copy)]
pub struct Replied {
    pub seat: Seat,
    pub answer: Answer,
}

impl Seat {
    pub fn power_up() -> Seat
        ensures { result ≡ power_up }
    {
        Seat {
            tallies: Tallies::default(),
            channel: Channel::power_up(),
        }
    }

    // What was queued is dropped.
    pub fn reset(mut self) -> Seat
        ensures { result ≡ reset self }
    {
        self.tallies = self.tallies.dropped_more(self.channel.receiver.queue.count);
        self.channel = self.channel.master_reset();
        self
    }

    pub fn line(self) -> bool
        ensures { result ≡ line self }
    {
        self.channel.line()
    }

    pub fn five(self) -> Five
        ensures { result ≡ five self }
    {
        Five {
            arrived: self.tallies.arrived,
            read: self.tallies.read,
            lost: self.tallies.lost,
            dropped: self.tallies.dropped,
            queued: self.channel.receiver.queue.count as u32,
        }
    }
}

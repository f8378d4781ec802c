// The tallies of a seat: four are kept, and how many are still queued is the receive queue's own number.
ghost use Rattle.std.specs.Prelude.{◌≡◌, ◌-◌, ◌==◌, nat_le};
ghost use Rattle.base.specs.Pick.{pick};
ghost use Rattle.channel.specs.Moments.{side, moments_of};
ghost use Rattle.channel.specs.Steps.{stepped};
ghost use Rattle.seat.specs.Tallies.{largest, more, tallied, add_up};

use crate::Tallies;
use crate::events::received;
use channel::{Channel, Stepped};
use registers::SeatEvent;

impl Tallies {
    fn read_more(mut self, n: u8) -> Tallies
        ensures { result ≡ more self 0 n 0 0 }
    {
        self.read = self.read.wrapping_add(u32::from(n));
        self
    }

    pub(crate) fn dropped_more(mut self, n: u8) -> Tallies
        ensures { result ≡ more self 0 0 0 n }
    {
        self.dropped = self.dropped.wrapping_add(u32::from(n));
        self
    }

    // As many are queued as before where an overrun has lost one.
    #[tactic(auto, unfolding(base::specs::Pick::pick))]
    fn arrived_more(mut self, heard: bool, before: u8, after: u8) -> Tallies
        ensures { result ≡ pick heard (more self 1 0 (pick (after == before) 1 0) 0) (more self 0 0 0 0) }
    {
        if heard {
            self.arrived = self.arrived.wrapping_add(1);
            if after == before {
                self.lost = self.lost.wrapping_add(1);
            }
        }
        self
    }

    // After an event that left this. A refused one left as many queued as there were, so that only one that may receive asks for the answer. Each arm
    // returns by itself, so that the code that is made goes from the event's own arm to its own tally.
    pub(crate) fn after(self, held: Channel, e: SeatEvent, left: Stepped) -> Tallies
        requires { left ≡ stepped held e }
        ensures { result ≡ tallied self (side held) (moments_of held e) }
    {
        let before = held.receiver.queue.count;
        let after = left.channel.receiver.queue.count;
        match e {
            SeatEvent::Read(_) => return self.read_more(before.saturating_sub(after)),
            SeatEvent::Write(_, _) => return self.dropped_more(before.saturating_sub(after)),
            SeatEvent::Arrival(_, _) => return self.arrived_more(
                received(held, e, left.answer),
                before,
                after,
            ),
            SeatEvent::Levels(_) => return self,
            SeatEvent::Time => return self.arrived_more(
                received(held, e, left.answer),
                before,
                after,
            ),
        }
    }

    // No more can arrive.
    pub(crate) fn is_full(self) -> bool
        ensures { result ≡ nat_le largest self.arrived }
    {
        self.arrived == u32::MAX
    }

    // Whether the four others add up to what arrived, with so many still queued; in more than 32 bits, so that no sum wraps.
    pub fn add_up(self, queued: u32) -> bool
        ensures { result ≡ add_up self queued }
    {
        let others = self.read as u64 + self.lost as u64 + self.dropped as u64 + queued as u64;
        others == self.arrived as u64
    }
}

// One event on a seat.
ghost use Rattle.std.specs.Prelude.{◌≡◌, length};
ghost use Rattle.base.specs.Pick.{pick};
ghost use Rattle.receiver.specs.Ledger.{arrived_in};
ghost use Rattle.channel.specs.Moments.{accepted_moments, moments_of};
ghost use Rattle.channel.specs.Steps.{stepped as channel·stepped};
ghost use Rattle.seat.specs.Steps.{would_pass, stepped};
ghost use Rattle.seat.specs.Counts.{refused_last};

use crate::{Replied, Seat};
use base::{Answer, Refusal};
use channel::Channel;
use registers::SeatEvent;

// Whether a channel receives a character by an event, if that is not refused: one from outside, or in loopback the one that leaves.
fn hears(c: Channel, e: SeatEvent) -> bool
    ensures { pick result 1 0 ≡ length (arrived_in (accepted_moments c e)) }
{
    match e {
        SeatEvent::Arrival(_, _) => return !c.settings.is_looped(),
        SeatEvent::Time => return c.settings.is_looped() & c.transmitter.busy,
        SeatEvent::Read(_) => return false,
        SeatEvent::Write(_, _) => return false,
        SeatEvent::Levels(_) => return false,
    }
}

// And whether it has, by one that it answered so.
pub(crate) fn received(c: Channel, e: SeatEvent, answer: Answer) -> bool
    requires { answer ≡ (channel·stepped c e).answer }
    ensures { pick result 1 0 ≡ length (arrived_in (moments_of c e)) }
{
    hears(c, e) & (answer.refusal() == 0)
}

impl Seat {
    // Only a tally at its largest asks what the event would receive.
    fn would_pass(self, e: SeatEvent) -> bool
        ensures { result ≡ would_pass self e }
    {
        self.tallies.is_full() && hears(self.channel, e)
    }

    // Where one more would arrive than can be tallied: what the channel refuses comes first.
    fn refuse_last(self, e: SeatEvent) -> Replied
        ensures { result ≡ refused_last self e }
    {
        let refusal = self
            .channel
            .settings
            .refusal(e)
            .unwrap_or(Refusal::TallyFull);
        Replied {
            seat: self,
            answer: Answer::Refused(refusal.number()),
        }
    }

    // The channel is lent to its step, which gives it back as it was where it refuses.
    pub fn step(self, e: SeatEvent) -> Replied
        ensures { result ≡ stepped self e }
    {
        if self.would_pass(e) {
            return self.refuse_last(e);
        }
        let stepped = lending::lent(self.channel, e);
        let moved = self.tallies.after(self.channel, e, stepped);
        Replied {
            seat: Seat {
                tallies: moved,
                channel: stepped.channel,
            },
            answer: stepped.answer,
        }
    }
}

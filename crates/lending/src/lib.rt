// A channel lent by `&mut` to one function, which calls the by-value step: the late and thin form.
#![tactic(auto)]

ghost use Rattle.std.specs.Prelude.{◌≡◌};
ghost use Rattle.channel.specs.Steps.{stepped};

use base::Answer;
use channel::{Channel, Stepped};
use registers::SeatEvent;

// "Each call touches the one seat it names": the channel of that seat is lent, and what the by-value step makes of it is stored where it lies.
pub fn touch(c: &mut Channel, e: SeatEvent) -> Answer
    ensures { (c.new ≡ (stepped c.old e).channel) × (result ≡ (stepped c.old e).answer) }
{
    let s = (*c).step(e);
    *c = s.channel;
    s.answer
}

// The lender: a channel by value, lent to `touch` for the call, so that callers deal in values alone.
pub fn lent(mut c: Channel, e: SeatEvent) -> Stepped
    ensures { result ≡ stepped c e }
{
    let answer = touch(&mut c, e);
    Stepped { channel: c, answer }
}

// The modem outputs of a seat, with the word that tells of them.
ghost use Rattle.std.specs.Prelude.{◌≡◌, false};
ghost use Rattle.c_word.specs.Word.{Tells};
ghost use Rattle.c_bench.specs.Outputs.{outputs, outputs_of};

use base::{Answer, Refusal};
use records::SEATS;
use registers::Settings;
use seat::Seat;

// In loopback the terminals are inactive, whatever the MCR says (document 004, MCR bit 4).
fn active_outputs(mcr: u8) -> u8
    ensures { result ≡ outputs mcr }
{
    if base::bit(Settings::MCR_LOOP, mcr) {
        return 0;
    }
    base::nibble(
        base::bit(Settings::MCR_DTR, mcr),
        base::bit(Settings::MCR_RTS, mcr),
        base::bit(Settings::MCR_OUT1, mcr),
        base::bit(Settings::MCR_OUT2, mcr),
    )
}

// "seat (or line) above 7": refused.
pub fn seat_outputs(held: Seat, n: u32) -> u64
    ensures { Tells result (outputs_of held.channel.settings.mcr n) false }
{
    if SEATS <= n as usize {
        return c_word::word(Answer::Refused(Refusal::SeatAbove.number()), false);
    }
    c_word::word(
        Answer::Byte(active_outputs(held.channel.settings.mcr)),
        false,
    )
}

// The wires: a character arrives, the modem inputs are given, a character time passes.
ghost use Rattle.std.specs.Prelude.{◌≡◌};
ghost use Rattle.channel.specs.Effects.{receives as Effects·receives, heard_outside, heard_back, noticed as Effects·noticed};
ghost use Rattle.channel.specs.Steps.{effect};
ghost use Rattle.registers.specs.declared.SeatEvent.TheVariants.{Arrival, Levels, Time};

use crate::{Channel, Modem, Stepped};
use base::Answer;
use queue::Character;
use receiver::Receiver;

impl Channel {
    // A character is received, whether it comes from outside or out of the channel's own shift register.
    #[tactic(auto, unfolding(crate::specs::Effects::receives))]
    fn receives(self, character: Character) -> Receiver
        ensures { result ≡ Effects·receives self character }
    {
        self.receiver.receive(self.settings.is_fifo(), character)
    }

    // In loopback the receive side does not hear what arrives.
    #[tactic(auto, unfolding(crate::specs::Effects::heard_outside, base::specs::Pick::pick))]
    fn heard_outside(self, character: Character) -> Receiver
        ensures { result ≡ heard_outside self character }
    {
        if self.settings.is_looped() {
            return self.receiver;
        }
        self.receives(character)
    }

    #[tactic(auto, unfolding(crate::specs::Steps::effect, crate::specs::Effects::after_arrival))]
    pub(crate) fn arrived(mut self, marks: u8, byte: u8) -> Stepped
        ensures { result ≡ effect self (Arrival marks byte) }
    {
        self.receiver = self.heard_outside(Character { data: byte, marks });
        self.answered(Answer::Done)
    }

    // The modem side where the MCR and the levels become these: what changes is told from the inputs that the channel sees.
    #[tactic(auto, unfolding(crate::specs::Effects::noticed))]
    pub(crate) fn noticed(self, mcr: u8, levels: u8) -> Modem
        ensures { result ≡ Effects·noticed self mcr levels }
    {
        let before = registers::inputs(self.settings.mcr, self.modem.levels);
        let after = registers::inputs(mcr, levels);
        Modem {
            levels,
            changes: registers::changes_after(self.modem.changes, before, after),
        }
    }

    #[tactic(auto, unfolding(crate::specs::Steps::effect, crate::specs::Effects::after_levels))]
    pub(crate) fn levels_given(mut self, levels: u8) -> Stepped
        ensures { result ≡ effect self (Levels levels) }
    {
        self.modem = self.noticed(self.settings.mcr, levels);
        self.answered(Answer::Done)
    }

    // In loopback the receive side hears what leaves.
    #[tactic(auto, unfolding(crate::specs::Effects::heard_back, base::specs::Pick::pick))]
    fn heard_back(self) -> Receiver
        ensures { result ≡ heard_back self }
    {
        if self.settings.is_looped() & self.transmitter.busy {
            let data = self.settings.cut(self.transmitter.shift);
            return self.receives(Character { data, marks: 0 });
        }
        self.receiver
    }

    #[tactic(auto, unfolding(crate::specs::Steps::effect, crate::specs::Effects::after_time, crate::specs::Effects::time_answer))]
    pub(crate) fn time_passed(mut self) -> Stepped
        ensures { result ≡ effect self Time }
    {
        let answer = self
            .settings
            .wire_answer(self.transmitter.busy, self.transmitter.shift);
        let heard = self.heard_back();
        self.transmitter = self.transmitter.shift();
        self.receiver = heard.wait(self.settings.is_fifo());
        self.answered(answer)
    }
}

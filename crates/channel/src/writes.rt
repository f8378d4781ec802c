// A register is written: what it keeps, and what the write empties or sets.
ghost use Rattle.std.specs.Prelude.{◌≡◌};
ghost use Rattle.channel.specs.Effects.{fcr_written, mcr_written, after_write};
ghost use Rattle.channel.specs.Steps.{effect};
ghost use Rattle.registers.specs.declared.SeatEvent.TheVariants.{Write};

use crate::{Channel, Stepped};
use base::Answer;
use registers::{Register, Settings};

impl Channel {
    #[tactic(auto, unfolding(crate::specs::Effects::fcr_written, crate::specs::Effects::fcr_receiver, crate::specs::Effects::fcr_transmitter, crate::specs::Effects::mode_changed))]
    fn fcr_written(mut self, byte: u8) -> Channel
        ensures { result ≡ fcr_written self byte }
    {
        let changed = self.settings.changes_mode(byte);
        let on = base::bit(Settings::FCR_FIFO, byte);
        let receive = on & base::bit(Settings::FCR_EMPTY_RECEIVE, byte);
        let transmit = on & base::bit(Settings::FCR_EMPTY_TRANSMIT, byte);
        self.receiver = self.receiver.fcr_written(changed, receive);
        self.transmitter = self.transmitter.fcr_written(changed | transmit);
        self.settings = self.settings.write(Register::IirFcr, byte);
        self
    }

    #[tactic(auto, unfolding(crate::specs::Effects::mcr_written))]
    fn mcr_written(mut self, byte: u8) -> Channel
        ensures { result ≡ mcr_written self byte }
    {
        let settings = self.settings.write(Register::Mcr, byte);
        let modem = self.noticed(settings.mcr, self.modem.levels);
        self.settings = settings;
        self.modem = modem;
        self
    }

    #[tactic(auto, unfolding(crate::specs::Effects::after_write, crate::specs::Effects::ier_written))]
    fn with_written(mut self, register: Register, byte: u8) -> Channel
        ensures { result ≡ after_write self register byte }
    {
        match register {
            Register::RbrThr => {
                self.transmitter = self.transmitter.write(self.settings.is_fifo(), byte);
                return self;
            }
            Register::Ier => {
                let before = base::bit(Settings::IER_HOLDING_EMPTY, self.settings.ier);
                let after = base::bit(Settings::IER_HOLDING_EMPTY, byte);
                self.settings = self.settings.write(Register::Ier, byte);
                self.transmitter = self.transmitter.ier_written(!before & after);
                return self;
            }
            Register::IirFcr => return self.fcr_written(byte),
            Register::Mcr => return self.mcr_written(byte),
            _ => {
                self.settings = self.settings.write(register, byte);
                return self;
            }
        }
    }

    #[tactic(auto, unfolding(crate::specs::Steps::effect))]
    pub(crate) fn written(self, number: u8, byte: u8) -> Stepped
        ensures { result ≡ effect self (Write number byte) }
    {
        let register = self.settings.register(number);
        self.with_written(register, byte).answered(Answer::Done)
    }
}

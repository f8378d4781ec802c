// A register is read: what is answered, and what the read clears.
ghost use Rattle.std.specs.Prelude.{◌≡◌};
ghost use Rattle.channel.specs.Effects.{read_of};
ghost use Rattle.channel.specs.Steps.{effect};
ghost use Rattle.registers.specs.declared.SeatEvent.TheVariants.{Read};
ghost use Rattle.registers.specs.declared.Register.TheVariants.{IirFcr};

use crate::{Channel, Stepped};
use base::Answer;
use registers::Register;

impl Channel {
    // The low digit of what is read names the cause, and decides whether the flag is cleared.
    fn iir_read(mut self) -> Stepped
        ensures { result ≡ read_of self IirFcr }
    {
        let byte = status::iir(
            self.settings,
            self.receiver,
            self.transmitter,
            self.modem.changes,
        );
        let named = byte % 16 == status::IIR_HOLDING_EMPTY;
        self.transmitter = self.transmitter.iir_read(named);
        self.answered(Answer::Byte(byte))
    }

    // The answer and the channel after it, in the same arm.
    #[tactic(auto, unfolding(crate::specs::Effects::after_read, crate::specs::Effects::answer_at, crate::specs::Effects::lsr_read, crate::specs::Effects::msr_read, crate::specs::Status::lsr, crate::specs::Status::msr))]
    fn shown_by(mut self, register: Register) -> Stepped
        ensures { result ≡ read_of self register }
    {
        match register {
            Register::RbrThr => {
                let got = self.receiver.get();
                self.receiver = got.receiver;
                return self.answered(Answer::Letter(got.byte, got.figures));
            }
            Register::IirFcr => return self.iir_read(),
            Register::Lsr => {
                let fifo = self.settings.is_fifo();
                let byte = status::lsr(fifo, self.receiver, self.transmitter);
                self.receiver = self.receiver.lsr_read(fifo);
                return self.answered(Answer::Byte(byte));
            }
            Register::Msr => {
                let inputs = registers::inputs(self.settings.mcr, self.modem.levels);
                let byte = registers::modem_status(self.modem.changes, inputs);
                self.modem.changes = 0;
                return self.answered(Answer::Byte(byte));
            }
            _ => return self.answered(Answer::Byte(self.settings.shown(register))),
        }
    }

    #[tactic(auto, unfolding(crate::specs::Steps::effect))]
    pub(crate) fn read(self, number: u8) -> Stepped
        ensures { result ≡ effect self (Read number) }
    {
        self.shown_by(self.settings.register(number))
    }
}

// The settings of a channel: its registers by name, the mode, the trigger, the divisor and the word length.
#![tactic(auto)]

use base::Answer;

mod arrivals;
mod loopback;
mod modem;
mod refusals;

ghost use Rattle.std.specs.Prelude.{◌≡◌, ◌+◌, ◌^◌, eqb};
ghost use Rattle.base.specs.Bits.{bit};
ghost use Rattle.registers.specs.Words.{trigger, word_bits, cut, wire_answer};
ghost use Rattle.registers.specs.Registers.{plain_register, register_at, fcr_kept, kept, shown_by, divisor};
ghost use Rattle.registers.specs.Modem.{differ};

pub use loopback::inputs;
pub use modem::{any_change, changes_after, modem_status};

#[repr(C)]
#[derive(Clone, Copy, Default)]
pub struct Settings {
    pub ier: u8,
    pub fcr: u8,
    pub lcr: u8,
    pub mcr: u8,
    pub scratch: u8,
    pub dll: u8,
    pub dlm: u8,
}

// A register by what it is; its number depends on LCR bit 7.
#[derive(Clone, Copy)]
pub enum Register {
    RbrThr,
    Ier,
    IirFcr,
    Lcr,
    Mcr,
    Lsr,
    Msr,
    Scratch,
    Dll,
    Dlm,
}

// What can happen to a seat.
#[derive(Clone, Copy)]
pub enum SeatEvent {
    Read(u8),
    Write(u8, u8),
    Arrival(u8, u8),
    Levels(u8),
    Time,
}

// "0 RBR/THR, 1 IER, 2 IIR read and FCR write, 3 LCR, 4 MCR, 5 LSR, 6 MSR, 7 scratch. With LCR bit 7 set, 0 and 1 are DLL and DLM"
impl Register {
    pub const RBR_THR: u8 = 0;

    pub const IER: u8 = 1;

    pub const IIR_FCR: u8 = 2;

    pub const LCR: u8 = 3;

    pub const MCR: u8 = 4;

    pub const LSR: u8 = 5;

    pub const MSR: u8 = 6;

    pub const SCRATCH: u8 = 7;

    pub const DLL: u8 = 0;

    pub const DLM: u8 = 1;
}

// The bits of the registers that are settings.
impl Settings {
    pub const IER_DATA: u8 = 0;

    pub const IER_HOLDING_EMPTY: u8 = 1;

    pub const IER_LINE_STATUS: u8 = 2;

    pub const IER_MODEM: u8 = 3;

    pub const FCR_FIFO: u8 = 0;

    pub const FCR_EMPTY_RECEIVE: u8 = 1;

    pub const FCR_EMPTY_TRANSMIT: u8 = 2;

    pub const FCR_STORED: u8 = 3;

    pub const FCR_TRIGGER_LOW: u8 = 6;

    pub const FCR_TRIGGER_HIGH: u8 = 7;

    pub const LCR_PARITY: u8 = 3;

    pub const LCR_BREAK: u8 = 6;

    pub const LCR_DIVISOR: u8 = 7;

    pub const MCR_DTR: u8 = 0;

    pub const MCR_RTS: u8 = 1;

    pub const MCR_OUT1: u8 = 2;

    // It lets the seat raise its line.
    pub const MCR_OUT2: u8 = 3;

    pub const MCR_LOOP: u8 = 4;

    // "bits 7-6 choose trigger 1, 4, 8 or 14"
    pub const TRIGGER_1: u8 = 1;

    pub const TRIGGER_4: u8 = 4;

    pub const TRIGGER_8: u8 = 8;

    pub const TRIGGER_14: u8 = 14;

    pub fn is_fifo(self) -> bool
        ensures { result ≡ bit 0 self.fcr }
    {
        base::bit(Settings::FCR_FIFO, self.fcr)
    }

    // Whether a byte written to the FCR changes the mode.
    pub fn changes_mode(self, byte: u8) -> bool
        ensures { result ≡ differ (bit 0 self.fcr) (bit 0 byte) }
    {
        self.is_fifo() != base::bit(Settings::FCR_FIFO, byte)
    }

    #[tactic(auto, unfolding(crate::specs::Words::trigger, base::specs::Pick::pick))]
    pub fn trigger(self) -> u8
        ensures { result ≡ trigger self.fcr }
    {
        let high = base::bit(Settings::FCR_TRIGGER_HIGH, self.fcr);
        let low = base::bit(Settings::FCR_TRIGGER_LOW, self.fcr);
        if high {
            return base::pick_byte(low, Settings::TRIGGER_14, Settings::TRIGGER_8);
        }
        base::pick_byte(low, Settings::TRIGGER_4, Settings::TRIGGER_1)
    }

    // The registers as they stand with LCR bit 7 clear.
    #[tactic(auto, unfolding(crate::specs::Registers::plain_register, base::specs::Pick::pick))]
    fn plain_register(number: u8) -> Register
        ensures { result ≡ plain_register number }
    {
        match number {
            Register::RBR_THR => Register::RbrThr,
            Register::IER => Register::Ier,
            Register::IIR_FCR => Register::IirFcr,
            Register::LCR => Register::Lcr,
            Register::MCR => Register::Mcr,
            Register::LSR => Register::Lsr,
            Register::MSR => Register::Msr,
            _ => Register::Scratch,
        }
    }

    #[tactic(auto, unfolding(crate::specs::Registers::register_at, base::specs::Pick::pick))]
    pub fn register(self, number: u8) -> Register
        ensures { result ≡ register_at (bit 7 self.lcr) number }
    {
        let shown = base::bit(Settings::LCR_DIVISOR, self.lcr);
        if shown {
            if number == Register::DLL {
                return Register::Dll;
            }
            if number == Register::DLM {
                return Register::Dlm;
            }
            return Settings::plain_register(number);
        }
        Settings::plain_register(number)
    }

    // A byte is written: what the settings keep of it, whichever register it goes to.
    pub fn write(mut self, register: Register, byte: u8) -> Settings
        ensures { result ≡ kept self register byte }
    {
        match register {
            Register::Ier => {
                self.ier = byte % 16;
                self
            }
            Register::IirFcr => {
                self.fcr = Settings::fcr_kept(byte);
                self
            }
            Register::Lcr => {
                self.lcr = byte;
                self
            }
            Register::Mcr => {
                self.mcr = byte % 32;
                self
            }
            Register::Scratch => {
                self.scratch = byte;
                self
            }
            Register::Dll => {
                self.dll = byte;
                self
            }
            Register::Dlm => {
                self.dlm = byte;
                self
            }
            _ => self,
        }
    }

    // A register is read that is a setting; of the others it shows 0, and the channel has what they show.
    pub fn shown(self, register: Register) -> u8
        ensures { result ≡ shown_by self register }
    {
        match register {
            Register::RbrThr => 0,
            Register::Ier => self.ier,
            Register::IirFcr => 0,
            Register::Lcr => self.lcr,
            Register::Mcr => self.mcr,
            Register::Lsr => 0,
            Register::Msr => 0,
            Register::Scratch => self.scratch,
            Register::Dll => self.dll,
            Register::Dlm => self.dlm,
        }
    }

    #[tactic(auto, unfolding(crate::specs::Registers::fcr_kept, base::specs::Pick::pick))]
    pub fn fcr_kept(byte: u8) -> u8
        ensures { result ≡ fcr_kept byte }
    {
        let on = base::bit(Settings::FCR_FIFO, byte);
        if on {
            let stored = base::bit(Settings::FCR_STORED, byte);
            let low = base::bit(Settings::FCR_TRIGGER_LOW, byte);
            let high = base::bit(Settings::FCR_TRIGGER_HIGH, byte);
            return base::byte_of(true, false, false, stored, false, false, low, high);
        }
        0
    }

    fn no_divisor(self) -> bool
        ensures { result ≡ eqb (divisor self) 0 }
    {
        self.dll as u16 + 256 * self.dlm as u16 == 0
    }

    // The largest byte of the word length; its set bits are those that the length has.
    pub(crate) fn widest(self) -> u8
        ensures { result + 1 ≡ 2 ^ word_bits self.lcr }
    {
        match self.lcr % 4 {
            0 => 0x1F,
            1 => 0x3F,
            2 => 0x7F,
            _ => 0xFF,
        }
    }

    pub fn cut(self, byte: u8) -> u8
        ensures { result ≡ cut self.lcr byte }
    {
        byte & self.widest()
    }

    // What a character time is answered with, given what is in the shift register.
    #[tactic(auto, unfolding(base::specs::Pick::pick))]
    pub fn wire_answer(self, busy: bool, shift: u8) -> Answer
        ensures { result ≡ wire_answer self.mcr self.lcr busy shift }
    {
        if self.is_looped() {
            return Answer::Idle;
        }
        if base::bit(Settings::LCR_BREAK, self.lcr) {
            return Answer::Break;
        }
        if busy {
            return Answer::Sent(self.cut(shift));
        }
        Answer::Idle
    }
}

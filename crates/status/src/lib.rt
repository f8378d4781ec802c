// What a channel shows of its settings and its two sides: the cause of an interrupt, by the table of causes, the IIR, the line and the LSR.
#![tactic(auto)]

use receiver::Receiver;
use registers::Settings;
use transmitter::Transmitter;

mod standing;

ghost use Rattle.std.specs.Prelude.{◌≡◌};
ghost use Rattle.status.specs.Status.{lsr_of, cause_of, iir_of, line_of};

use standing::{Standing, When};

// A row of the table: the code that the IIR names, the IER bit that enables it, and when it stands.
#[derive(Clone, Copy)]
struct Row(u8, u8, When);

// "IIR names the first enabled cause": in order of priority, so the first row counts that is enabled and stands.
const CAUSES: [Row; 5] = [
    // "06 any of LSR 1-4 (IER bit 2)"
    Row(IIR_LINE_STATUS, Settings::IER_LINE_STATUS, When::Trouble),
    // "04 data, which is a character in 16450 mode and the trigger reached in FIFO mode (bit 0)"
    Row(IIR_DATA, Settings::IER_DATA, When::Data),
    // "0C time-out count 4 (bit 0)"
    Row(IIR_TIMEOUT, Settings::IER_DATA, When::Timeout),
    // "02 holding-empty flag (bit 1)"
    Row(IIR_HOLDING_EMPTY, Settings::IER_HOLDING_EMPTY, When::Flag),
    // "00 any of MSR 0-3 (bit 3)"
    Row(IIR_MODEM, Settings::IER_MODEM, When::Change),
];

// Of the MSR its bits 0 to 3 are asked, which are the changes that stand.
fn cause(settings: Settings, receiver: Receiver, transmitter: Transmitter, changes: u8) -> u8
    ensures { result ≡ cause_of settings receiver transmitter changes }
{
    let fifo = settings.is_fifo();
    let standing = Standing {
        trouble: receiver.trouble(fifo),
        data: receiver.data(fifo, settings.trigger()),
        timeout: receiver.timed_out(),
        flag: transmitter.flag,
        change: registers::any_change(changes),
    };
    for Row(code, bit, when) in CAUSES {
        if base::bit(bit, settings.ier) & standing.holds(when) {
            return code;
        }
    }
    IIR_NONE
}

pub fn iir(settings: Settings, receiver: Receiver, transmitter: Transmitter, changes: u8) -> u8
    ensures { result ≡ iir_of settings receiver transmitter changes }
{
    let named = cause(settings, receiver, transmitter, changes);
    named + base::pick_byte(settings.is_fifo(), IIR_FIFO, 0)
}

#[tactic(auto, unfolding(crate::specs::Status::line_of))]
pub fn line(settings: Settings, receiver: Receiver, transmitter: Transmitter, changes: u8) -> bool
    ensures { result ≡ line_of settings receiver transmitter changes }
{
    let named = cause(settings, receiver, transmitter, changes);
    (named != IIR_NONE) & base::bit(Settings::MCR_OUT2, settings.mcr)
}

#[tactic(auto, unfolding(crate::specs::Status::lsr_of))]
pub fn lsr(fifo: bool, receiver: Receiver, transmitter: Transmitter) -> u8
    ensures { result ≡ lsr_of fifo receiver transmitter }
{
    let marks = receiver.marks(fifo);
    base::byte_of(
        !receiver.is_empty(),
        receiver.overrun,
        base::bit(base::MARK_PARITY, marks),
        base::bit(base::MARK_FRAMING, marks),
        base::bit(base::MARK_BREAK, marks),
        transmitter.is_empty(),
        transmitter.is_idle(),
        receiver.any_marked(fifo),
    )
}

// The codes of the causes, and the one that is named where there is none.
pub const IIR_LINE_STATUS: u8 = 0x06;

pub const IIR_DATA: u8 = 0x04;

pub const IIR_TIMEOUT: u8 = 0x0C;

pub const IIR_HOLDING_EMPTY: u8 = 0x02;

pub const IIR_MODEM: u8 = 0x00;

pub const IIR_NONE: u8 = 0x01;

// "In FIFO mode C0 is added.": bits 7 and 6.
pub const IIR_FIFO: u8 = 0xC0;

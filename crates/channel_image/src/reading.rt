// The reader of a channel's bytes.
ghost use Rattle.std.specs.Prelude.{◌≡◌, ◌≤◌, length};
ghost use Rattle.channel_image.specs.Read.{slots_from, transmitter_from, receiver_from, channel_from, found};

use crate::tests;
use channel::{Channel, Modem};
use queue::{Character, Queue};
use receiver::Receiver;
use registers::Settings;
use std::array;
use transmitter::Transmitter;

// The slots whose characters have these bytes and these marks.
fn slots_from(bytes: &[u8], marks: &[u8]) -> [Character; crate::SLOTS]
    requires { (16 ≤ length bytes.now) × (16 ≤ length marks.now) }
    ensures { result ≡ slots_from bytes.now 0 marks.now 0 }
{
    array::from_fn(|k| Character {
        data: bytes[k],
        marks: marks[k],
    })
}

// A character to send has no marks.
fn transmitter_from(b: &[u8; crate::LENGTH]) -> Transmitter
    ensures { result ≡ transmitter_from b.now }
{
    Transmitter {
        queue: Queue {
            slots: slots_from(&b[crate::OUTGOING..], &[0; crate::SLOTS]),
            count: b[crate::WAITING],
        },
        busy: b[crate::BUSY] == 1,
        shift: b[crate::SHIFT],
        flag: b[crate::FLAG] == 1,
    }
}

fn receiver_from(b: &[u8; crate::LENGTH]) -> Receiver
    ensures { result ≡ receiver_from b.now }
{
    Receiver {
        queue: Queue {
            slots: slots_from(&b[crate::ARRIVED..], &b[crate::MARKS..]),
            count: b[crate::RECEIVED],
        },
        overrun: b[crate::OVERRUN] == 1,
        kept: b[crate::KEPT],
        timeout: b[crate::TIMEOUT],
        last: b[crate::LAST],
    }
}

fn channel_from(b: &[u8; crate::LENGTH]) -> Channel
    ensures { result ≡ channel_from b.now }
{
    Channel {
        settings: Settings {
            ier: b[crate::IER],
            fcr: b[crate::FCR],
            lcr: b[crate::LCR],
            mcr: b[crate::MCR],
            scratch: b[crate::SCRATCH],
            dll: b[crate::DLL],
            dlm: b[crate::DLM],
        },
        receiver: receiver_from(b),
        transmitter: transmitter_from(b),
        modem: Modem {
            levels: b[crate::LEVELS],
            changes: b[crate::CHANGES],
        },
    }
}

// Reads the channel that a lent part begins with.
pub fn get(part: &[u8]) -> Option<Channel>
    ensures { result ≡ found part.now }
{
    let b = part.first_chunk::<{ crate::LENGTH }>()?;
    if tests::channel_good(b) {
        Some(channel_from(b))
    } else {
        None
    }
}

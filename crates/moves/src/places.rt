// What moved at the seat that a record names.
ghost use Rattle.std.specs.Prelude.{◌≡◌};
ghost use Rattle.channel.specs.Status.{lsr as Status·lsr};
ghost use Rattle.channel.specs.Status.{msr as Status·msr};
ghost use Rattle.page.specs.Pages.{joined, joined_all};
ghost use Rattle.moves.specs.Moved.{queues_moved, flags_moved, loopback_moved, channel_moved};
ghost use Rattle.moves.specs.Moved.{seat_moved};

use crate::changes;
use channel::Channel;
use page::Page;
use records::Event;

// LSR bits 1 to 4.
const TROUBLES: [&[u8]; 4] = [b"overrun", b"parity", b"framing", b"break"];

// MSR bits 0 to 3.
const INPUTS: [&[u8]; 4] = [b"CTS-changed", b"DSR-changed", b"RI-ended", b"DCD-changed"];

fn queues(page: Page, before: Channel, after: Channel) -> Page
    ensures { result ≡ joined_all page (queues_moved before after) }
{
    let queued = changes::count(
        page,
        b"queued ",
        before.receiver.queue.count,
        after.receiver.queue.count,
    );
    let sending = changes::count(
        queued,
        b"to send ",
        before.transmitter.queue.count,
        after.transmitter.queue.count,
    );
    changes::flag(
        sending,
        before.transmitter.busy,
        after.transmitter.busy,
        b"shift register loaded",
        b"shift register empty",
    )
}

fn flags(page: Page, before: Channel, after: Channel) -> Page
    ensures { result ≡ joined_all page (flags_moved before after) }
{
    let timeout = changes::flag(
        page,
        before.receiver.timed_out(),
        after.receiver.timed_out(),
        b"time-out set",
        b"time-out cleared",
    );
    changes::flag(
        timeout,
        before.transmitter.flag,
        after.transmitter.flag,
        b"holding-empty flag set",
        b"holding-empty flag cleared",
    )
}

fn lsr(channel: Channel) -> u8
    ensures { result ≡ Status·lsr channel }
{
    status::lsr(
        channel.settings.is_fifo(),
        channel.receiver,
        channel.transmitter,
    )
}

fn msr(channel: Channel) -> u8
    ensures { result ≡ Status·msr channel }
{
    let inputs = registers::inputs(channel.settings.mcr, channel.modem.levels);
    registers::modem_status(channel.modem.changes, inputs)
}

fn loopback(page: Page, before: Channel, after: Channel) -> Page
    ensures { result ≡ joined page (loopback_moved before after) }
{
    changes::flag(
        page,
        before.settings.is_looped(),
        after.settings.is_looped(),
        b"loopback on",
        b"loopback off",
    )
}

fn channel_moved(page: Page, before: Channel, after: Channel) -> Page
    ensures { result ≡ joined_all page (channel_moved before after) }
{
    let queues = queues(page, before, after);
    let troubles = changes::latches(queues, 1, lsr(before), lsr(after), &TROUBLES);
    let flags = flags(troubles, before, after);
    let inputs = changes::latches(flags, 0, msr(before), msr(after), &INPUTS);
    loopback(inputs, before, after)
}

// The seat that the record names, where it names one.
pub fn at_seat(page: Page, before: Channel, after: Channel, kind: u8, n: u8) -> Page
    ensures { result ≡ joined_all page (seat_moved before after kind n) }
{
    if (kind < Event::MASTER_RESET) & !(records::SEATS <= n as usize) {
        return channel_moved(page, before, after);
    }
    page
}

// What the bytes may say. They are an array, so that each place is known to be inside it.
ghost use Rattle.std.specs.Prelude.{◌≡◌, length};
ghost use Rattle.channel_image.specs.Allowed.{fifo_at, sixteen_small, registers_in_range, flags_in_range, queues_within, count_allowed, unused_zero, channel_good};

use queue::Queue;
use registers::Settings;

// Of sixteen bytes, each from the n-th on is at most this.
fn sixteen_small(bytes: &[u8], n: u8, most: u8) -> bool
    requires { length bytes.now ≡ 16 }
    ensures { result ≡ sixteen_small bytes.now 0 n most }
{
    bytes.iter().skip(n as usize).all(|byte| *byte <= most)
}

fn registers_in_range(b: &[u8; crate::LENGTH]) -> bool
    ensures { result ≡ registers_in_range b.now }
{
    let fcr = b[crate::FCR];
    (b[crate::IER] <= 0x0F)
        & (Settings::fcr_kept(fcr) == fcr)
        & (b[crate::MCR] <= 0x1F)
        & (b[crate::CHANGES] <= 0x0F)
        & (b[crate::LEVELS] <= 0x0F)
}

fn flags_in_range(b: &[u8; crate::LENGTH]) -> bool
    ensures { result ≡ flags_in_range b.now }
{
    (b[crate::OVERRUN] <= 1)
        & (b[crate::KEPT] <= 7)
        & (b[crate::FLAG] <= 1)
        & (b[crate::TIMEOUT] <= 4)
        & (b[crate::BUSY] <= 1)
}

fn queues_within(b: &[u8; crate::LENGTH]) -> bool
    ensures { result ≡ queues_within b.now }
{
    let most = Queue::capacity(base::bit(Settings::FCR_FIFO, b[crate::FCR]));
    (b[crate::WAITING] <= most) & (b[crate::RECEIVED] <= most)
}

fn count_allowed(b: &[u8; crate::LENGTH]) -> bool
    ensures { result ≡ count_allowed b.now }
{
    (b[crate::TIMEOUT] == 0)
        | (base::bit(Settings::FCR_FIFO, b[crate::FCR]) & !(b[crate::RECEIVED] == 0))
}

fn unused_zero(b: &[u8; crate::LENGTH]) -> bool
    ensures { result ≡ unused_zero b.now }
{
    let waiting = b[crate::WAITING];
    let received = b[crate::RECEIVED];
    let shift = (b[crate::BUSY] == 1) | (b[crate::SHIFT] == 0);
    shift
        & sixteen_small(&b[crate::OUTGOING..crate::RECEIVED], waiting, 0)
        & sixteen_small(&b[crate::ARRIVED..crate::MARKS], received, 0)
        & sixteen_small(&b[crate::MARKS..], received, 0)
}

pub(crate) fn channel_good(b: &[u8; crate::LENGTH]) -> bool
    ensures { result ≡ channel_good b.now }
{
    registers_in_range(b)
        & flags_in_range(b)
        & sixteen_small(&b[crate::MARKS..], 0, base::ALL_MARKS)
        & queues_within(b)
        & count_allowed(b)
        & unused_zero(b)
}

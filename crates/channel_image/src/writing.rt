// The writer of a channel's bytes.
ghost use Rattle.std.specs.Prelude.{◌≡◌, ◌+◌, ◌≤◌, length};
ghost use Rattle.std.proofs.lemmas.List.Edits.{sets};
ghost use Rattle.channel_image.specs.Written.{bytes_of, front_bytes, channel_bytes, Put};

use channel::Channel;
use queue::Queue;

// The bytes of a queue's sixteen slots.
#[derive(Clone, Copy)]
struct QueueBytes {
    data: [u8; crate::SLOTS],
    marks: [u8; crate::SLOTS],
}

// What stands in a slot from the number queued on is not told, whatever a caller's bench has there. A loop over places: it is made into a few vector
// instructions, and `map` is not.
fn bytes_of(q: Queue) -> QueueBytes
    ensures data { result.«data» ≡ bytes_of (λ ch. ch.«data») q }
    ensures marks { result.marks ≡ bytes_of (λ ch. ch.marks) q }
{
    let n = q.count as usize;
    let mut data = [0u8; crate::SLOTS];
    let mut marks = [0u8; crate::SLOTS];
    for k in 0..crate::SLOTS {
        data[k] = base::pick_byte(k < n, q.slots[k].data, 0);
        marks[k] = base::pick_byte(k < n, q.slots[k].marks, 0);
    }
    QueueBytes { data, marks }
}

fn front_of(c: Channel) -> [u8; crate::OUTGOING]
    ensures { result ≡ front_bytes c }
{
    [
        c.settings.ier,
        c.settings.fcr,
        c.settings.lcr,
        c.settings.mcr,
        c.modem.changes,
        c.settings.scratch,
        c.modem.levels,
        c.settings.dll,
        c.settings.dlm,
        c.receiver.last,
        u8::from(c.receiver.overrun),
        c.receiver.kept,
        u8::from(c.transmitter.flag),
        c.receiver.timeout,
        u8::from(c.transmitter.busy),
        base::pick_byte(c.transmitter.busy, c.transmitter.shift, 0),
        c.transmitter.queue.count,
    ]
}

fn put_at(out: &mut [u8], place: usize, bytes: &[u8])
    requires { place + length bytes.now ≤ length out.old }
    ensures { out.new ≡ sets out.old place bytes.now }
{
    out[place..place + bytes.len()].copy_from_slice(bytes);
}

fn put_channel(out: &mut [u8], c: Channel)
    requires { 66 ≤ length out.old }
    ensures { out.new ≡ sets out.old 0 (channel_bytes c) }
{
    let front = front_of(c);
    let waiting = bytes_of(c.transmitter.queue);
    let received = bytes_of(c.receiver.queue);
    put_at(&mut *out, crate::IER, &front);
    put_at(&mut *out, crate::OUTGOING, &waiting.data);
    put_at(&mut *out, crate::RECEIVED, &[c.receiver.queue.count]);
    put_at(&mut *out, crate::ARRIVED, &received.data);
    put_at(&mut *out, crate::MARKS, &received.marks);
}

// Puts a channel's bytes at the start of a lent part, and says whether there was room for them.
pub fn put(channel: Channel, out: &mut [u8]) -> bool
    ensures { Put channel out.old out.new result }
{
    if out.len() < crate::LENGTH {
        return false;
    }
    put_channel(&mut *out, channel);
    true
}

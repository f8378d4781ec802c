// The writer of a record.
ghost use Rattle.std.specs.Prelude.{◌≡◌, ◌≤◌, length};
ghost use Rattle.std.proofs.lemmas.List.Edits.{sets};
ghost use Rattle.seat.specs.Seats.{queued};
ghost use Rattle.seat_image.specs.Written.{tally_bytes, Put};

use seat::Seat;

fn put_tallies(out: &mut [u8], seat: Seat)
    requires { 86 ≤ length out.old }
    ensures { out.new ≡ sets out.old 66 (tally_bytes seat.tallies (queued seat)) }
{
    let t = seat.tallies;
    let queued = u32::from(seat.channel.receiver.queue.count);
    let words = [
        t.arrived.to_le_bytes(),
        t.read.to_le_bytes(),
        t.lost.to_le_bytes(),
        t.dropped.to_le_bytes(),
        queued.to_le_bytes(),
    ];
    out[channel_image::LENGTH..crate::LENGTH].copy_from_slice(words.as_flattened());
}

// Puts the record of a seat at the start of a lent part, and says whether there was room for it.
pub fn put(seat: Seat, out: &mut [u8]) -> bool
    ensures { Put seat out.old out.new result }
{
    if out.len() < crate::LENGTH {
        return false;
    }
    channel_image::put(seat.channel, &mut *out);
    put_tallies(&mut *out, seat);
    true
}

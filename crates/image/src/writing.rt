// The writer of an image.
ghost use Rattle.std.specs.Prelude.{◌≡◌, ◌++◌, ◌+◌, ◌≤◌, length};
ghost use Rattle.std.proofs.lemmas.List.Edits.{sets};
ghost use Rattle.records.specs.Events.{seat_count};
ghost use Rattle.image.specs.Written.{header, controller_bytes, records_of, image_of, Saves};

use base::{Answer, Refusal};
use bench::Bench;
use controller::Controller;
use records::SEATS;
use seat::Seat;

fn front_of(c: Controller) -> [u8; crate::FRONT]
    ensures { result ≡ header ++ controller_bytes c }
{
    let [low, high] = crate::NEWEST.to_le_bytes();
    [
        b'B',
        b'E',
        b'N',
        low,
        high,
        c.setup.stage,
        u8::from(c.setup.level),
        c.setup.base,
        c.operation.first,
        c.operation.mask,
        c.operation.service,
        u8::from(c.operation.special),
        u8::from(c.setup.automatic),
        u8::from(c.operation.rotation),
        u8::from(c.operation.selected),
        c.lines.latches,
    ]
}

fn put_front(out: &mut [u8], at: usize, c: Controller)
    requires { at + 16 ≤ length out.old }
    ensures { out.new ≡ sets out.old at (header ++ controller_bytes c) }
{
    let front = front_of(c);
    out[at..at + front.len()].copy_from_slice(&front);
}

// "Each seat record goes into its own stretch of the buffer": the part that starts at the seat's offset is lent to the writer of its record.
fn put_seats(out: &mut [u8], at: usize, seats: [Seat; SEATS])
    requires { at + 688 ≤ length out.old }
    ensures { out.new ≡ sets out.old at (records_of seat_count seats) }
{
    for (k, seat) in seats.iter().enumerate() {
        let place = at + seat_image::LENGTH * k;
        seat_image::put(*seat, &mut out[place..]);
    }
}

fn put_image(out: &mut [u8], at: usize, bench: Bench)
    requires { at + 704 ≤ length out.old }
    ensures { out.new ≡ sets out.old at (image_of bench) }
{
    put_front(&mut *out, at, bench.controller);
    put_seats(&mut *out, at + crate::FRONT, bench.seats);
}

// Writes the bench at the named place of a lent buffer. Nothing is written before there is known to be room for all of it.
pub fn save(bench: Bench, out: &mut [u8], at: usize) -> Answer
    ensures { Saves bench at out.old out.new result }
{
    if (out.len() < at) || (out.len() - at < crate::LENGTH) {
        return Answer::Refused(Refusal::NoRoom.number());
    }
    put_image(&mut *out, at, bench);
    Answer::Done
}

// The tallies of a record: five numbers of four bytes, the low byte first.
ghost use Rattle.std.specs.Prelude.{◌≡◌, ◌≤◌};
ghost use Rattle.seat_image.specs.Words.{word_at};
ghost use Rattle.seat_image.specs.Read.{tallies_from, tallies_told};

use seat::Tallies;

fn word_at(b: &[u8; crate::TALLIES], place: usize) -> u32
    requires { place ≤ 16 }
    ensures { result ≡ word_at b.now place }
{
    u32::from_le_bytes([b[place], b[place + 1], b[place + 2], b[place + 3]])
}

fn tallies_from(b: &[u8; crate::TALLIES]) -> Tallies
    ensures { result ≡ tallies_from b.now }
{
    Tallies {
        arrived: word_at(b, crate::ARRIVED),
        read: word_at(b, crate::READ),
        lost: word_at(b, crate::LOST),
        dropped: word_at(b, crate::DROPPED),
    }
}

// The tallies that these bytes say of a seat with so many characters queued.
pub(crate) fn tallies_told(b: &[u8; crate::TALLIES], queued: u8) -> Option<Tallies>
    ensures { result ≡ tallies_told b.now queued }
{
    let t = tallies_from(b);
    let still = word_at(b, crate::QUEUED);
    if t.add_up(still) & (still == u32::from(queued)) {
        Some(t)
    } else {
        None
    }
}

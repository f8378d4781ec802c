// The reader of a record, of any version.
ghost use Rattle.std.specs.Prelude.{◌≡◌, ◌≤◌, length};
ghost use Rattle.seat_image.specs.Read.{length_of, tallies_in, tallies_told, found};

use crate::tallies;
use seat::{Seat, Tallies};

// How long a record of a version is.
pub fn length(version: u16) -> usize
    ensures { result ≡ length_of version }
{
    if version < crate::WITH_TALLIES {
        channel_image::LENGTH
    } else {
        crate::LENGTH
    }
}

// A version without tallies reads with arrived equal to what is queued.
fn tallies_of(part: &[u8], version: u16, queued: u8) -> Option<Tallies>
    requires { length_of version ≤ length part.now }
    ensures { result ≡ tallies_told (tallies_in version part.now queued) queued }
{
    if version < crate::WITH_TALLIES {
        return Some(Tallies {
            arrived: u32::from(queued),
            read: 0,
            lost: 0,
            dropped: 0,
        });
    }
    let block = part[channel_image::LENGTH..].first_chunk::<{ crate::TALLIES }>()?;
    tallies::tallies_told(block, queued)
}

// Reads the record of a version that a lent part begins with.
pub fn get(part: &[u8], version: u16) -> Option<Seat>
    ensures { result ≡ found version part.now }
{
    if part.len() < length(version) {
        return None;
    }
    let channel = channel_image::get(part)?;
    let tallies = tallies_of(part, version, channel.receiver.queue.count)?;
    Some(Seat { tallies, channel })
}

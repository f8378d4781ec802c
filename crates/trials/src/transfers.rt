// A wound that goes between two tallies of a seat.
use crate::buffers::Buffer;

const TALLIES: u16 = 66;

// The seat, and which two of its tallies: by the letters of the page.
#[derive(Clone, Copy)]
pub(crate) struct Transfer {
    pub c: u8,
    pub y: u8,
    pub z: u8,
}

// "A number of the copy is four bytes of it, low byte first."
fn number_at(copy: &Buffer, position: u16) -> u32 {
    u32::from_le_bytes(copy.part(position))
}

impl Transfer {
    // "N(j) is the one at position 16 + r * c + 66 + 4 * j."
    fn place_of(self, copy: &Buffer, j: u8) -> u16 {
        copy.record_at(self.c) + TALLIES + 4 * j as u16
    }

    // The amount is made of arrived and of N(y). "Where y is 0 or z is 0, N(y) becomes (N(y) + amount) % 4294967296; else it becomes (N(y) + 4294967296 -
    // amount) % 4294967296. In both cases N(z) becomes (N(z) + amount) % 4294967296."
    pub(crate) fn make<F: FnOnce(u32, u32) -> u32>(self, copy: &mut Buffer, amount: F)
        requires { F.IsAlwaysCallable amount }
    {
        let y_at = self.place_of(copy, self.y);
        let z_at = self.place_of(copy, self.z);
        let y = number_at(copy, y_at);
        let amount = amount(number_at(copy, self.place_of(copy, 0)), y);
        let z = number_at(copy, z_at).wrapping_add(amount);
        let y = if self.y == 0 || self.z == 0 {
            y.wrapping_add(amount)
        } else {
            y.wrapping_sub(amount)
        };
        copy.put(y_at, &y.to_le_bytes());
        copy.put(z_at, &z.to_le_bytes());
    }
}

// The numbers that a stream is made of. A draw advances x and picks from the new x.
ghost use Rattle.std.specs.Prelude.{◌≡◌, ◌+◌, ◌*◌, ◌/◌, ◌%◌, ◌≤◌};

// "(x * 1664525 + 1013904223) % 4294967296"
pub fn advance(x: u32) -> u32
    ensures { result ≡ (x * 1664525 + 1013904223) % 4294967296 }
{
    x.wrapping_mul(1664525).wrapping_add(1013904223)
}

// "(x / 65536) % n", with n one above most: so n is never 0, and the tables have their columns of this kind as "most".
pub fn pick(x: u32, most: u8) -> u8
    ensures { (result ≡ (x / 65536) % (most + 1)) × (result ≤ most) }
{
    ((x / 65536) % (most as u32 + 1)) as u8
}

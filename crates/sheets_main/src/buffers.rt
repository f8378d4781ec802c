// Room for what is read and for what is answered.
ghost use Rattle.std.specs.Prelude.{◌≡◌, length};

// Room for the answers of 65536 lines, 16 bytes for each.
pub(crate) type Answers = [u8; 1048576];

// No word is longer.
pub(crate) type LongWord = [u8; 131072];

pub(crate) fn room<const N: usize>() -> [u8; N]
    ensures { N ≡ length result }
{
    [0u8; N]
}

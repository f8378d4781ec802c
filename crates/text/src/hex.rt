// Hexadecimal digits as characters.
ghost use Rattle.std.specs.Prelude.{◌≡◌, ◌<◌, IfSome};
ghost use Rattle.text.specs.Hex.{digit_of};

// What a digit is worth, a letter small or capital.
pub fn digit(c: u8) -> Option<u8>
    ensures { (result ≡ digit_of c) × IfSome result (λ d. d < 16) }
{
    match c {
        b'0'..=b'9' => Some(c - b'0'),
        b'A'..=b'F' => Some(c - b'A' + 10),
        b'a'..=b'f' => Some(c - b'a' + 10),
        _ => None,
    }
}

// Words, numbers and letters, one behind the other.
ghost use Rattle.std.specs.Prelude.{◌≡◌, []};
ghost use Rattle.text.specs.Line.{decimal};
ghost use Rattle.page.specs.Pieces.{no_piece, with_byte, with, said, hex, letter};

use crate::Piece;
use text::capital;

impl Piece {
    pub fn empty() -> Piece
        ensures { result ≡ no_piece }
    {
        Piece {
            bytes: [0u8; 68],
            count: 0,
        }
    }

    fn byte(mut self, c: u8) -> Piece
        ensures { result ≡ with_byte self c }
    {
        let at = self.count;
        if at < Piece::MOST {
            self.bytes[at] = c;
            self.count = at + 1;
            return self;
        }
        self
    }

    pub fn text(self, words: &[u8]) -> Piece
        ensures { result ≡ with self words.now }
    {
        words.iter().fold(self, |piece, c| piece.byte(*c))
    }

    // What it says.
    pub(crate) fn said(&self) -> &[u8]
        ensures { result.now ≡ said self.now }
    {
        &self.bytes[..self.count.min(Piece::MOST)]
    }

    pub fn decimal(self, n: u64) -> Piece
        ensures { result ≡ with self (decimal n) }
    {
        if n < 10 {
            return self.byte(b'0' + (n % 10) as u8);
        }
        let front = self.decimal(n / 10);
        front.byte(b'0' + (n % 10) as u8)
    }

    // Two hexadecimal capitals.
    pub fn hex(self, byte: u8) -> Piece
        ensures { result ≡ with self (hex byte) }
    {
        let digits = byte as u32;
        let front = self.byte(capital(digits / 16));
        front.byte(capital(digits))
    }

    // A byte, and the character that it is, where it can be shown.
    pub fn letter(self, byte: u8) -> Piece
        ensures { result ≡ with self (letter byte) }
    {
        let front = self.hex(byte);
        match byte {
            0x21..=0x7E => front.text(b" '").byte(byte).byte(b'\''),
            _ => front,
        }
    }
}

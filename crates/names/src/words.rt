// The cause that IIR shows, in words.
ghost use Rattle.std.specs.Prelude.{◌≡◌};
ghost use Rattle.page.specs.Pieces.{piece, with};
ghost use Rattle.names.specs.Words.{cause_said, iir_words};

use page::Piece;

fn cause(piece: Piece, byte: u8) -> Piece
    ensures { result ≡ with piece (cause_said byte) }
{
    match byte % 16 {
        0x6 => piece.text(b"line trouble"),
        0x4 => piece.text(b"data"),
        0xC => piece.text(b"time-out"),
        0x2 => piece.text(b"transmit queue empty"),
        0x0 => piece.text(b"modem input changed"),
        _ => piece.text(b"no cause"),
    }
}

pub fn iir(byte: u8) -> Piece
    ensures { result ≡ piece (iir_words byte) }
{
    let head = Piece::empty().text(b"IIR ").hex(byte).text(b": ");
    cause(head, byte)
}

// Refusals by their numbers: the words of `names/Names`.
ghost use Rattle.std.specs.Prelude.{◌≡◌};
ghost use Rattle.page.specs.Pieces.{with};
ghost use Rattle.names.specs.Words.{refusal_words};

use page::Piece;

pub(crate) fn refusal(piece: Piece, number: u8) -> Piece
    ensures { result ≡ with piece (refusal_words number) }
{
    match number {
        1 => piece.text(b"seat or line above 7"),
        2 => piece.text(b"register above 7, port above 1"),
        3 => piece.text(b"kind above 8"),
        4 => piece.text(b"record cut off at the end"),
        5 => piece.text(b"arrival or character time while the divisor is 0"),
        6 => piece.text(b"marks above 7"),
        7 => piece.text(b"modem levels above 15"),
        8 => piece.text(b"controller not ready"),
        9 => piece.text(b"not served (cascaded controllers, 8080 mode, poll)"),
        10 => piece.text(b"rate or clock not in the divisor list"),
        11 => piece.text(b"no settings line, or an LCR byte that none gives"),
        12 => piece.text(b"lent buffer too short"),
        13 => piece.text(b"wrong mark"),
        14 => piece.text(b"unknown version"),
        15 => piece.text(b"a saved bench that cannot be"),
        16 => piece.text(b"data beyond the word length"),
        17 => piece.text(b"parity mark with parity off"),
        18 => piece.text(b"break with data not 0"),
        19 => piece.text(b"reception that no tally can hold"),
        _ => piece.text(b"no refusal"),
    }
}

// The lines of a set.
ghost use Rattle.std.specs.Prelude.{◌≡◌};
ghost use Rattle.page.specs.Pieces.{with};
ghost use Rattle.names.specs.Words.{lines_in, line_list, lines_said};

use crate::bits::named;
use page::Piece;

const LINES: [&[u8]; 8] = [b" 0", b" 1", b" 2", b" 3", b" 4", b" 5", b" 6", b" 7"];

fn size_of(set: u8) -> u8
    ensures { result ≡ lines_in set }
{
    set.count_ones() as u8
}

fn numbers(piece: Piece, set: u8) -> Piece
    ensures { result ≡ with piece (line_list set) }
{
    named(piece, set, &LINES)
}

pub fn lines(piece: Piece, set: u8) -> Piece
    ensures { result ≡ with piece (lines_said set) }
{
    if set == 0 {
        return piece.text(b"no line");
    }
    if size_of(set) == 1 {
        return numbers(piece.text(b"line"), set);
    }
    numbers(piece.text(b"lines"), set)
}

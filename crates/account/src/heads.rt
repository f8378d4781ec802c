// A record's line of the listing, as the head of its page.
ghost use Rattle.std.specs.Prelude.{◌≡◌, ◌+◌, length};
ghost use Rattle.text.specs.Line.{decimal};
ghost use Rattle.page.specs.Pieces.{with};
ghost use Rattle.page.specs.Pages.{headed};
ghost use Rattle.account.specs.Head.{figures_shown, head_words};
ghost use Rattle.account.specs.Head.{blanks as Head·blanks};

use base::Answer;
use page::{Page, Piece};

// The answer in three capitals, and the output.
fn figures(piece: Piece, value: u16, output: bool) -> Piece
    ensures { result ≡ with piece (figures_shown value output) }
{
    let digits = value as u32;
    let shown = [
        b' ',
        text::capital(digits / 256),
        text::capital(digits / 16),
        text::capital(digits),
        b' ',
        b'0' + u8::from(output),
    ];
    piece.text(&shown)
}

// Blanks up to column 12, one at least: the line has a digit or more of each number, and 7 bytes besides.
fn blanks(piece: Piece, n: u64, refusal: u8) -> Piece
    ensures { result ≡ with piece (Head·blanks (length (decimal n) + length (decimal refusal) + 7)) }
{
    if refusal < 10 {
        if n < 10 {
            return piece.text(b"   ");
        }
        if n < 100 {
            return piece.text(b"  ");
        }
        return piece.text(b" ");
    }
    if 100 <= refusal {
        return piece.text(b" ");
    }
    if n < 10 {
        return piece.text(b"  ");
    }
    piece.text(b" ")
}

pub(crate) fn begun(n: u64, answer: Answer, output: bool) -> Page
    ensures { result ≡ headed (head_words n answer output) }
{
    let refusal = answer.refusal();
    let numbers = Piece::empty().decimal(n).text(b" ").decimal(refusal as u64);
    let line = figures(numbers, answer.value(), output);
    Page::begin(blanks(line, n, refusal))
}

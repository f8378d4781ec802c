// The state of the controller in words, as a page: its setup, its sets of lines, its rank and its modes.
#![tactic(auto)]

ghost use Rattle.std.specs.Prelude.{◌≡◌, ◌++◌};
ghost use Rattle.base.specs.Pick.{pick};
ghost use Rattle.text.specs.Line.{decimal};
ghost use Rattle.text.specs.Quoted.{quoted};
ghost use Rattle.page.specs.Pieces.{piece, with};
ghost use Rattle.page.specs.Pages.{joined_all};
ghost use Rattle.rank.specs.Rank.{line_at};
ghost use Rattle.controller_page.specs.ControllerPages.{controller_head, base_words, setup_pieces, set_words, set_pieces, rank_words, mode_pieces, output_words, controller_page};

use controller::{Controller, Setup};
use page::{Page, Piece};

fn either(test: bool, words: &[u8], others: &[u8]) -> Piece
    ensures { result ≡ piece (pick test words.now others.now) }
{
    let none = Piece::empty();
    if test {
        return none.text(words);
    }
    none.text(others)
}

fn vector_base(byte: u8) -> Piece
    ensures { result ≡ piece (base_words byte) }
{
    Piece::empty().text(b"base ").hex(byte)
}

fn tell_setup(page: Page, s: Setup) -> Page
    ensures { result ≡ joined_all page (setup_pieces s) }
{
    let ready = either(s.stage == Setup::READY, b"ready", b"not ready");
    let mode = either(s.level, b"level mode", b"edge mode");
    page.join(ready).join(mode).join(vector_base(s.base))
}

fn set_of_lines(words: &[u8], set: u8) -> Piece
    ensures { result ≡ piece (set_words words.now set) }
{
    names::lines(Piece::empty().text(words).hex(set).text(b": "), set)
}

fn tell_sets(page: Page, c: Controller) -> Page
    ensures { result ≡ joined_all page (set_pieces c) }
{
    let page = page.join(set_of_lines(b"requests ", c.requests()));
    let page = page.join(set_of_lines(b"mask ", c.operation.mask));
    page.join(set_of_lines(b"in service ", c.operation.service))
}

fn ranked(piece: Piece, first: u8, place: u8) -> Piece
    ensures { result ≡ with piece (quoted " " ++ decimal (line_at first place)) }
{
    piece.text(b" ").decimal(rank::line_at(first, place) as u64)
}

fn rank(first: u8) -> Piece
    ensures { result ≡ piece (rank_words first) }
{
    let mut piece = Piece::empty().text(b"rank");
    for place in 0..rank::LINES {
        piece = ranked(piece, first, place);
    }
    piece
}

fn tell_modes(page: Page, c: Controller) -> Page
    ensures { result ≡ joined_all page (mode_pieces c) }
{
    let page = page.join(names::word(Piece::empty(), c.operation.special, b"special mask"));
    let page = page.join(names::word(Piece::empty(), c.setup.automatic, b"automatic end"));
    let page = page.join(names::word(Piece::empty(), c.operation.rotation, b"rotation"));
    page.join(names::word(
        Piece::empty(),
        c.operation.selected,
        b"port 0 reads in service",
    ))
}

fn output(c: Controller) -> Piece
    ensures { result ≡ piece (output_words c) }
{
    either(c.output(), b"output high", b"output low")
}

fn head() -> Piece
    ensures { result ≡ piece controller_head }
{
    Piece::empty().text(b"            ").text(b"controller: ")
}

pub fn controller(held: Controller) -> Page
    ensures { result ≡ controller_page held }
{
    let page = tell_sets(tell_setup(Page::begin(head()), held.setup), held);
    let page = tell_modes(page.join(rank(held.operation.first)), held);
    page.join(output(held)).end()
}

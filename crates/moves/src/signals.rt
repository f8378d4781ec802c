// What moved at the controller: a piece a line, and what it shows as a whole.
ghost use Rattle.std.specs.Prelude.{◌≡◌};
ghost use Rattle.page.specs.Pieces.{piece};
ghost use Rattle.page.specs.Pages.{joined, joined_all};
ghost use Rattle.moves.specs.Moved.{turned, line_words, line_turned, lines_turned, first_moved, ready_moved, output_moved, controller_moved};

use crate::changes;
use controller::{Controller, Setup};
use page::{Page, Piece};

fn named(n: u8, words: &[u8]) -> Piece
    ensures { result ≡ piece (line_words n words.now) }
{
    Piece::empty().text(b"line ").decimal(n as u64).text(words)
}

fn turned(n: u8, before: bool, after: bool, on: &[u8], off: &[u8]) -> Piece
    ensures { result ≡ piece (turned before after (line_words n on.now) (line_words n off.now)) }
{
    let none = Piece::empty();
    match (before, after) {
        (false, true) => named(n, on),
        (true, false) => named(n, off),
        _ => none,
    }
}

fn turn(page: Page, n: u8, before: u8, after: u8, on: &[u8], off: &[u8]) -> Page
    ensures { result ≡ joined page (line_turned n before after on.now off.now) }
{
    let was = base::bit(n, before);
    let is = base::bit(n, after);
    page.join(turned(n, was, is, on, off))
}

fn turns(page: Page, before: u8, after: u8, on: &[u8], off: &[u8]) -> Page
    ensures { result ≡ joined_all page (lines_turned before after on.now off.now) }
{
    let mut told = page;
    for n in 0..rank::LINES {
        told = turn(told, n, before, after, on, off);
    }
    told
}

fn ready(page: Page, before: Controller, after: Controller) -> Page
    ensures { result ≡ joined page (ready_moved before after) }
{
    changes::flag(
        page,
        before.setup.stage == Setup::READY,
        after.setup.stage == Setup::READY,
        b"controller ready",
        b"controller not ready",
    )
}

fn first_piece(before: u8, after: u8) -> Piece
    ensures { result ≡ piece (first_moved before after) }
{
    if before == after {
        return Piece::empty();
    }
    named(after, b" ranks first")
}

fn first(page: Page, before: u8, after: u8) -> Page
    ensures { result ≡ joined page (first_moved before after) }
{
    page.join(first_piece(before, after))
}

fn output(page: Page, before: Controller, after: Controller) -> Page
    ensures { result ≡ joined page (output_moved before after) }
{
    changes::flag(
        page,
        before.output(),
        after.output(),
        b"output rises",
        b"output falls",
    )
}

pub fn at_controller(page: Page, before: Controller, after: Controller) -> Page
    ensures { result ≡ joined_all page (controller_moved before after) }
{
    let ready = ready(page, before, after);
    let levels = turns(
        ready,
        before.lines.levels,
        after.lines.levels,
        b" rises",
        b" falls",
    );
    let served = turns(
        levels,
        before.operation.service,
        after.operation.service,
        b" in service",
        b" out of service",
    );
    let was = rank::line_at(before.operation.first, 0);
    let is = rank::line_at(after.operation.first, 0);
    let ranked = first(served, was, is);
    output(ranked, before, after)
}

// What has changed: a piece of it, joined to the page.
ghost use Rattle.std.specs.Prelude.{◌≡◌, ◌+◌, ◌≤◌, ◌++◌, length};
ghost use Rattle.text.specs.Quoted.{quoted};
ghost use Rattle.page.specs.Pieces.{piece};
ghost use Rattle.page.specs.Pages.{joined, joined_all};
ghost use Rattle.moves.specs.Moved.{turned, latch_moved, latches_moved};
ghost use Rattle.moves.specs.Moved.{counted as Moved·counted};

use page::{Page, Piece};

fn counted(words: &[u8], before: u8, after: u8) -> Piece
    ensures { result ≡ piece (Moved·counted words.now before after) }
{
    if before == after {
        return Piece::empty();
    }
    Piece::empty().text(words).decimal(after as u64)
}

pub(crate) fn count(page: Page, words: &[u8], before: u8, after: u8) -> Page
    ensures { result ≡ joined page (Moved·counted words.now before after) }
{
    page.join(counted(words, before, after))
}

fn flagged(before: bool, after: bool, on: &[u8], off: &[u8]) -> Piece
    ensures { result ≡ piece (turned before after on.now off.now) }
{
    let none = Piece::empty();
    match (before, after) {
        (false, true) => none.text(on),
        (true, false) => none.text(off),
        _ => none,
    }
}

pub(crate) fn flag(page: Page, before: bool, after: bool, on: &[u8], off: &[u8]) -> Page
    ensures { result ≡ joined page (turned before after on.now off.now) }
{
    page.join(flagged(before, after, on, off))
}

fn latched(name: &[u8], before: bool, after: bool) -> Piece
    ensures { result ≡ piece (turned before after (name.now ++ quoted " set") (name.now ++ quoted " cleared")) }
{
    let none = Piece::empty();
    match (before, after) {
        (false, true) => none.text(name).text(b" set"),
        (true, false) => none.text(name).text(b" cleared"),
        _ => none,
    }
}

fn latch(page: Page, k: u8, before: u8, after: u8, name: &[u8]) -> Page
    ensures { result ≡ joined page (latch_moved k before after name.now) }
{
    page.join(latched(name, base::bit(k, before), base::bit(k, after)))
}

// Bits from `from` on, each by its name.
pub(crate) fn latches(page: Page, from: u8, before: u8, after: u8, names: &[&[u8]]) -> Page
    requires { from + length names.now ≤ 8 }
    ensures { result ≡ joined_all page (latches_moved from before after names.now) }
{
    let mut told = page;
    for (k, name) in names.iter().enumerate() {
        told = latch(told, from + k as u8, before, after, name);
    }
    told
}

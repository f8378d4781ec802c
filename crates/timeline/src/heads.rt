// The head of a timeline: which variables there are, each line and each seat in use in a scope of its own.
ghost use Rattle.std.specs.Prelude.{◌≡◌};
ghost use Rattle.text.specs.Line.{decimal};
ghost use Rattle.page.specs.Pages.{no_page, put};
ghost use Rattle.timeline.specs.Variables.{each, numbered, bit_name, bit_word};
ghost use Rattle.timeline.specs.Dump.{declaration, bit_declarations, scope, line_head, head_words, seat_head, head_end};

use crate::LINES;
use page::{Page, Piece};

fn number(page: Page, n: u8) -> Page
    ensures { result ≡ put page (decimal n) }
{
    page.add(Piece::empty().decimal(n as u64))
}

fn named(page: Page, word: &[u8], n: u8) -> Page
    ensures { result ≡ put page (numbered word.now n) }
{
    number(page.text(word), n)
}

// A variable of a line.
fn declare(page: Page, letter: &[u8], n: u8, word: &[u8]) -> Page
    ensures { result ≡ put page (declaration (numbered letter.now n) (numbered word.now n)) }
{
    let name = named(page.text(b"$var wire 1 "), letter, n);
    named(name.text(b" "), word, n).text(b" $end\n")
}

// A bit of a number of a seat.
fn declare_bit(page: Page, letter: &[u8], n: u8, k: u8, word: &[u8]) -> Page
    ensures { result ≡ put page (declaration (bit_name letter.now n k) (bit_word word.now n k)) }
{
    let name = number(named(page.text(b"$var wire 1 "), letter, n), k);
    let bit = named(name.text(b" "), word, n).text(b"[");
    number(bit, k).text(b"]").text(b" $end\n")
}

// A number of a seat, the highest bit first.
fn declare_number(page: Page, letter: &[u8], n: u8, width: u8, word: &[u8]) -> Page
    ensures { result ≡ put page (bit_declarations letter.now word.now n width) }
{
    let mut declared = page;
    for k in (0..width).rev() {
        declared = declare_bit(declared, letter, n, k, word);
    }
    declared
}

fn open(page: Page, word: &[u8], n: u8) -> Page
    ensures { result ≡ put page (scope word.now n) }
{
    named(page.text(b"$scope module "), word, n).text(b" $end\n")
}

fn line_head(page: Page, n: u8) -> Page
    ensures { result ≡ put page (line_head n) }
{
    let begun = open(page, b"line", n);
    let level = declare(begun, b"l", n, b"level");
    let request = declare(level, b"r", n, b"request");
    let service = declare(request, b"s", n, b"service");
    let mask = declare(service, b"m", n, b"mask");
    mask.text(b"$upscope $end\n")
}

fn line_heads(page: Page) -> Page
    ensures { result ≡ put page (each 8 line_head) }
{
    let mut heads = page;
    for n in 0..LINES {
        heads = line_head(heads, n);
    }
    heads
}

// What stands before the seats in use.
pub fn head() -> Page
    ensures { result ≡ put no_page head_words }
{
    let version = Page::empty().text(b"$version hailstoat $end\n");
    let begun = version.text(b"$timescale 1 us $end\n$scope module bench $end\n");
    line_heads(begun.text(b"$var wire 1 o output $end\n"))
}

// What stands for a seat in use.
pub fn seat_head(n: u8) -> Page
    ensures { result ≡ put no_page (seat_head n) }
{
    let begun = open(Page::empty(), b"seat", n);
    let lsr = declare_number(begun, b"L", n, 8, b"lsr");
    let queued = declare_number(lsr, b"q", n, 5, b"queued");
    queued.text(b"$upscope $end\n")
}

// What stands behind them.
pub fn head_end() -> Page
    ensures { result ≡ put no_page head_end }
{
    Page::empty().text(b"$upscope $end\n$enddefinitions $end\n")
}

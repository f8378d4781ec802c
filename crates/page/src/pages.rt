// Pages: a head, then pieces, and a new line wherever the next piece would not end on this one.
ghost use Rattle.std.specs.Prelude.{◌≡◌, ◌+◌, ◌≤◌, leb, length};
ghost use Rattle.page.specs.Pieces.{said};
ghost use Rattle.page.specs.Pages.{no_page, column_after, put_byte, put, shown, headed, width, indent, separation, placed, joined, ended};

use crate::{Page, Piece};

fn column_after(column: usize, c: u8) -> usize
    ensures { result ≡ column_after column c }
{
    if c == b'\n' {
        return 0;
    }
    if column < Page::MOST {
        return column + 1;
    }
    column
}

impl Page {
    pub fn empty() -> Page
        ensures { result ≡ no_page }
    {
        Page {
            bytes: [0u8; 4096],
            count: 0,
            column: 0,
            first: false,
        }
    }

    pub(crate) fn byte(mut self, c: u8) -> Page
        ensures { result ≡ put_byte self c }
    {
        let at = self.count;
        if at < Page::MOST {
            self.bytes[at] = c;
            self.count = at + 1;
            self.column = column_after(self.column, c);
            self.first = false;
            return self;
        }
        self
    }

    // A loop: `fold` copies the page once more for each byte.
    pub fn text(mut self, words: &[u8]) -> Page
        ensures { result ≡ put self words.now }
    {
        for c in words {
            self = self.byte(*c);
        }
        self
    }

    pub fn add(self, piece: Piece) -> Page
        ensures { result ≡ put self (said piece) }
    {
        self.text(piece.said())
    }

    // A page that begins with its head.
    pub fn begin(head: Piece) -> Page
        ensures { result ≡ headed (said head) }
    {
        let mut page = Page::empty().add(head);
        page.first = true;
        page
    }

    fn between(self) -> usize
        ensures { (result ≡ length (separation self)) × (result ≤ 2) }
    {
        if self.first {
            return 0;
        }
        2
    }

    fn fits(self, words: usize) -> bool
        ensures { result ≡ leb (self.column + length (separation self) + words) width }
    {
        let column = self.column.saturating_add(self.between());
        column.saturating_add(words) <= Page::WIDTH
    }

    fn separated(self) -> Page
        ensures { result ≡ put self (separation self) }
    {
        if self.first {
            return self;
        }
        self.text(b"; ")
    }

    pub(crate) fn new_line(self) -> Page
        ensures { result ≡ put self indent }
    {
        self.text(b"\n            ")
    }

    fn place(self, words: &[u8]) -> Page
        ensures { result ≡ placed self words.now }
    {
        if words.is_empty() {
            return self;
        }
        if self.fits(words.len()) {
            return self.separated().text(words);
        }
        self.new_line().text(words)
    }

    // Behind the text before it, or on a new line.
    pub fn join(self, piece: Piece) -> Page
        ensures { result ≡ joined self (said piece) }
    {
        self.place(piece.said())
    }

    // How many bytes stand on it.
    pub fn length(self) -> usize
        ensures { (result ≡ length (shown self)) × (result ≤ 4096) }
    {
        self.count.min(Page::MOST)
    }

    // The line feed at the end; where there is no room for it, it takes the last place.
    pub fn end(mut self) -> Page
        ensures { result ≡ ended self }
    {
        if self.count < Page::MOST {
            return self.byte(b'\n');
        }
        self.bytes[Page::MOST - 1] = b'\n';
        self.count = Page::MOST;
        self.column = 0;
        self.first = false;
        self
    }
}

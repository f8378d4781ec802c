// A comment, byte by byte: it goes on in a new line where its next word would not end on this one.
ghost use Rattle.std.specs.Prelude.{◌≡◌, ◌==◌, position};
ghost use Rattle.page.specs.Pages.{put};
ghost use Rattle.page.specs.Notes.{plain as Notes·plain};
ghost use Rattle.page.specs.Notes.{word_length, continuation, passed, note_byte, noted, commented};

use crate::Page;

fn plain(c: u8) -> u8
    ensures { result ≡ Notes·plain c }
{
    match c {
        0..=0x1F | 0x7F => b' ',
        _ => c,
    }
}

// Where the first blank is told.
fn blank(text: &[u8]) -> Option<usize>
    ensures { result ≡ position (λ c. Notes·plain c == 32) text.now }
{
    text.iter().position(|c| plain(*c) == b' ')
}

// How many bytes the word has with which the text begins.
fn word_length(text: &[u8]) -> usize
    ensures { result ≡ word_length text.now }
{
    blank(text).unwrap_or(text.len())
}

impl Page {
    fn continued(self) -> Page
        ensures { result ≡ put self continuation }
    {
        self.text(b"\n            # ")
    }

    fn is_passed(self, behind: usize) -> bool
        ensures { result ≡ passed self behind }
    {
        Page::WIDTH < self.column.saturating_add(1).saturating_add(behind)
    }

    // One byte of a comment, and how many bytes the word behind it has.
    fn note_byte(self, c: u8, behind: usize) -> Page
        ensures { result ≡ note_byte self c behind }
    {
        let shown = plain(c);
        if (shown == b' ') & self.is_passed(behind) {
            return self.continued();
        }
        if Page::WIDTH <= self.column {
            return self.continued().byte(shown);
        }
        self.byte(shown)
    }

    fn note(self, text: &[u8]) -> Page
        ensures { result ≡ noted self text.now }
    {
        let mut page = self;
        for (i, c) in text.iter().enumerate() {
            page = page.note_byte(*c, word_length(&text[i + 1..]));
        }
        page
    }

    // A comment, on lines of its own.
    pub fn comment(self, text: &[u8]) -> Page
        ensures { result ≡ commented self text.now }
    {
        if text.is_empty() {
            return self;
        }
        self.new_line().note(text)
    }
}

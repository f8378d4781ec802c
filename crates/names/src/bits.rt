// The words of the bits that are set.
ghost use Rattle.std.specs.Prelude.{◌≡◌, ◌==◌, [], ◌≤◌, length};
ghost use Rattle.base.specs.Pick.{pick};
ghost use Rattle.text.specs.Quoted.{quoted};
ghost use Rattle.page.specs.Pieces.{piece, with};
ghost use Rattle.names.specs.Words.{names_from, lsr_said, msr_said, marks_named, marks_said, levels_said};

use page::Piece;

const ALL_LEVELS: u8 = 15;

const LSR: [&[u8]; 8] = [
    b" data",
    b" overrun",
    b" parity",
    b" framing",
    b" break",
    b" holding-empty",
    b" empty",
    b" marked",
];

const MSR: [&[u8]; 8] = [
    b" CTS-changed",
    b" DSR-changed",
    b" RI-ended",
    b" DCD-changed",
    b" CTS",
    b" DSR",
    b" RI",
    b" DCD",
];

const MARKS: [&[u8]; 3] = [b" parity", b" framing", b" break"];

const LEVELS: [&[u8]; 4] = [b" CTS", b" DSR", b" RI", b" DCD"];

// Words that are said where something is so.
pub fn word(piece: Piece, set: bool, words: &[u8]) -> Piece
    ensures { result ≡ with piece (pick set words.now []) }
{
    if set {
        return piece.text(words);
    }
    piece
}

// The names of the bits that are set, each behind a blank, lowest first.
pub(crate) fn named(piece: Piece, byte: u8, names: &[&[u8]]) -> Piece
    requires { length names.now ≤ 8 }
    ensures { result ≡ with piece (names_from 0 names.now byte) }
{
    let mut said = piece;
    for (k, name) in names.iter().enumerate() {
        said = word(said, base::bit(k as u8, byte), name);
    }
    said
}

// The same, and words for none.
fn named_or_none(piece: Piece, byte: u8, names: &[&[u8]]) -> Piece
    requires { length names.now ≤ 8 }
    ensures { result ≡ with piece (pick (byte == 0) (quoted " none") (names_from 0 names.now byte)) }
{
    if byte == 0 {
        return piece.text(b" none");
    }
    named(piece, byte, names)
}

pub fn lsr(byte: u8) -> Piece
    ensures { result ≡ piece (lsr_said byte) }
{
    let head = Piece::empty().text(b"LSR ").hex(byte).text(b":");
    named_or_none(head, byte, &LSR)
}

pub fn msr(byte: u8) -> Piece
    ensures { result ≡ piece (msr_said byte) }
{
    let head = Piece::empty().text(b"MSR ").hex(byte).text(b":");
    named_or_none(head, byte, &MSR)
}

// The words of marks, each behind a blank.
pub fn marks_named(piece: Piece, marks: u8) -> Piece
    ensures { result ≡ with piece (marks_named marks) }
{
    named(piece, marks, &MARKS)
}

// The marks that a character comes with.
pub fn marks(piece: Piece, marks: u8) -> Piece
    ensures { result ≡ with piece (marks_said marks) }
{
    if base::ALL_MARKS < marks {
        return piece.text(b" with marks ").hex(marks);
    }
    if marks == 0 {
        return piece;
    }
    marks_named(piece.text(b" with"), marks)
}

// The modem levels that are set.
pub fn levels(piece: Piece, levels: u8) -> Piece
    ensures { result ≡ with piece (levels_said levels) }
{
    if ALL_LEVELS < levels {
        return piece.text(b" ").hex(levels);
    }
    named_or_none(piece, levels, &LEVELS)
}

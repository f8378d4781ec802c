// Registers by their names.
ghost use Rattle.std.specs.Prelude.{◌≡◌};
ghost use Rattle.page.specs.Pieces.{with};
ghost use Rattle.names.specs.Words.{name_read, name_written, name_of, name_at_divisor, register_words};

use page::Piece;

const LAST: u8 = 7;

fn read(piece: Piece, number: u8) -> Piece
    ensures { result ≡ with piece (name_read number) }
{
    match number {
        0 => piece.text(b"RBR"),
        1 => piece.text(b"IER"),
        2 => piece.text(b"IIR"),
        3 => piece.text(b"LCR"),
        4 => piece.text(b"MCR"),
        5 => piece.text(b"LSR"),
        6 => piece.text(b"MSR"),
        7 => piece.text(b"SCRATCH"),
        _ => piece,
    }
}

fn written(piece: Piece, number: u8) -> Piece
    ensures { result ≡ with piece (name_written number) }
{
    match number {
        0 => piece.text(b"THR"),
        2 => piece.text(b"FCR"),
        _ => read(piece, number),
    }
}

fn named(piece: Piece, number: u8, write: bool) -> Piece
    ensures { result ≡ with piece (name_of number write) }
{
    if write {
        return written(piece, number);
    }
    read(piece, number)
}

fn divisor_named(piece: Piece, number: u8, write: bool) -> Piece
    ensures { result ≡ with piece (name_at_divisor number write) }
{
    match number {
        0 => piece.text(b"DLL"),
        1 => piece.text(b"DLM"),
        _ => named(piece, number, write),
    }
}

// A register of a read or a write, while the divisor is to be reached or not.
pub fn register(piece: Piece, number: u8, divisor: bool, write: bool) -> Piece
    ensures { result ≡ with piece (register_words number divisor write) }
{
    if LAST < number {
        return piece.text(b"register ").decimal(number as u64);
    }
    if divisor {
        return divisor_named(piece, number, write);
    }
    named(piece, number, write)
}

// What is done at a seat.
ghost use Rattle.std.specs.Prelude.{◌≡◌};
ghost use Rattle.page.specs.Pieces.{piece, with};
ghost use Rattle.deeds.specs.Done.{seat_words, read_done, value_written, write_done, arrival_done, levels_done, time_done};

use page::Piece;

fn at_seat(piece: Piece, seat: u8) -> Piece
    ensures { result ≡ with piece (seat_words seat) }
{
    piece.text(b"seat ").decimal(seat as u64)
}

pub(crate) fn read(seat: u8, number: u8, divisor: bool) -> Piece
    ensures { result ≡ piece (read_done seat number divisor) }
{
    let reads = at_seat(Piece::empty(), seat).text(b" reads ");
    names::register(reads, number, divisor, false)
}

fn value_written(piece: Piece, number: u8, value: u8, divisor: bool) -> Piece
    ensures { result ≡ with piece (value_written number value divisor) }
{
    if (number == 0) & !divisor {
        return piece.letter(value);
    }
    piece.hex(value)
}

pub(crate) fn write(seat: u8, number: u8, value: u8, divisor: bool) -> Piece
    ensures { result ≡ piece (write_done seat number value divisor) }
{
    let writes = at_seat(Piece::empty(), seat).text(b" writes ");
    let named = names::register(writes, number, divisor, true).text(b" ");
    value_written(named, number, value, divisor)
}

pub(crate) fn arrival(seat: u8, marks: u8, value: u8) -> Piece
    ensures { result ≡ piece (arrival_done seat marks value) }
{
    let arrives = Piece::empty().letter(value).text(b" arrives at ");
    names::marks(at_seat(arrives, seat), marks)
}

pub(crate) fn levels(seat: u8, levels: u8) -> Piece
    ensures { result ≡ piece (levels_done seat levels) }
{
    let inputs = at_seat(Piece::empty().text(b"modem inputs of "), seat);
    names::levels(inputs.text(b":"), levels)
}

pub(crate) fn time(seat: u8) -> Piece
    ensures { result ≡ piece (time_done seat) }
{
    at_seat(Piece::empty().text(b"a character time at "), seat)
}

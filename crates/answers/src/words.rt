// What came of a record, by its answer.
ghost use Rattle.std.specs.Prelude.{◌≡◌};
ghost use Rattle.page.specs.Pieces.{piece, with};
ghost use Rattle.answers.specs.Came.{refused_came, behind_said, figures_said, letter_came, plain_came, register_came, port_name, port_came, byte_came, sent_came, vector_came, spurious_came, came_of};

use crate::refusals;
use base::{Answer, Figures};
use page::Piece;
use records::Event;
use registers::Register;

fn refused(number: u8) -> Piece
    ensures { result ≡ piece (refused_came number) }
{
    let head = Piece::empty().text(b"refused ").decimal(number as u64);
    refusals::refusal(head.text(b": "), number)
}

fn behind(piece: Piece, behind: u8) -> Piece
    ensures { result ≡ with piece (behind_said behind) }
{
    if behind == 0 {
        return piece;
    }
    piece.text(b", ").decimal(behind as u64).text(b" behind")
}

fn figures(piece: Piece, figures: Figures, empty: bool) -> Piece
    ensures { result ≡ with piece (figures_said figures empty) }
{
    if empty {
        return piece.text(b" again: nothing waits");
    }
    behind(names::marks(piece, figures.marks), figures.behind)
}

fn letter(byte: u8, given: Figures, empty: bool) -> Piece
    ensures { result ≡ piece (letter_came byte given empty) }
{
    let read = Piece::empty().text(b"RBR ").letter(byte);
    figures(read, given, empty)
}

fn plain(number: u8, divisor: bool, byte: u8) -> Piece
    ensures { result ≡ piece (plain_came number divisor byte) }
{
    let name = names::register(Piece::empty(), number, divisor, false);
    name.text(b" ").hex(byte)
}

fn register(number: u8, divisor: bool, byte: u8) -> Piece
    ensures { result ≡ piece (register_came number divisor byte) }
{
    match number {
        Register::IIR_FCR => names::iir(byte),
        Register::LSR => names::lsr(byte),
        Register::MSR => names::msr(byte),
        _ => plain(number, divisor, byte),
    }
}

fn port_name(piece: Piece, port: u8, selected: bool) -> Piece
    ensures { result ≡ with piece (port_name port selected) }
{
    if port == 0 {
        if selected {
            return piece.text(b"in service ");
        }
        return piece.text(b"requests ");
    }
    piece.text(b"mask ")
}

fn port(number: u8, selected: bool, byte: u8) -> Piece
    ensures { result ≡ piece (port_came number selected byte) }
{
    let name = port_name(Piece::empty(), number, selected);
    names::lines(name.hex(byte).text(b": "), byte)
}

fn byte_read(kind: u8, number: u8, divisor: bool, selected: bool, byte: u8) -> Piece
    ensures { result ≡ piece (byte_came kind number divisor selected byte) }
{
    if kind == Event::READ_CONTROLLER {
        return port(number, selected, byte);
    }
    register(number, divisor, byte)
}

fn sent(byte: u8) -> Piece
    ensures { result ≡ piece (sent_came byte) }
{
    Piece::empty().text(b"sent ").letter(byte)
}

fn vector(vector: u8) -> Piece
    ensures { result ≡ piece (vector_came vector) }
{
    let shown = Piece::empty().text(b"vector ").hex(vector);
    shown
        .text(b": line ")
        .decimal((vector % rank::LINES) as u64)
}

fn spurious(vector: u8) -> Piece
    ensures { result ≡ piece (spurious_came vector) }
{
    let shown = Piece::empty().text(b"vector ").hex(vector);
    shown.text(b": spurious")
}

pub fn came(
    kind: u8,
    number: u8,
    divisor: bool,
    selected: bool,
    empty: bool,
    answer: Answer,
) -> Piece
    ensures { result ≡ piece (came_of kind number divisor selected empty answer) }
{
    match answer {
        Answer::Byte(byte) => byte_read(kind, number, divisor, selected, byte),
        Answer::Letter(byte, given) => letter(byte, given, empty),
        Answer::Done => Piece::empty(),
        Answer::Sent(byte) => sent(byte),
        Answer::Idle => Piece::empty().text(b"nothing is sent"),
        Answer::Break => Piece::empty().text(b"break is sent"),
        Answer::Vector(byte) => vector(byte),
        Answer::Spurious(byte) => spurious(byte),
        Answer::Place(_) => Piece::empty(),
        Answer::Divisor(_) => Piece::empty(),
        Answer::Refused(refusal) => refused(refusal),
    }
}

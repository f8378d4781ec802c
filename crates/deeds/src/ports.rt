// What is done at the controller.
ghost use Rattle.std.specs.Prelude.{◌≡◌};
ghost use Rattle.page.specs.Pieces.{piece, with};
ghost use Rattle.deeds.specs.Done.{controller_read_done, word_at0, word_at1, word_written, controller_write_done};

use controller::{Controller, Operation, Setup};
use page::Piece;

pub(crate) fn read(port: u8, selected: bool) -> Piece
    ensures { result ≡ piece (controller_read_done port selected) }
{
    let nothing = Piece::empty();
    match port {
        Controller::PORT_COMMAND if selected => nothing.text(b"controller reads in service"),
        Controller::PORT_COMMAND => nothing.text(b"controller reads requests"),
        Controller::PORT_MASK => nothing.text(b"controller reads mask"),
        _ => nothing.text(b"controller reads port ").decimal(port as u64),
    }
}

fn word_at_0(piece: Piece, value: u8) -> Piece
    ensures { result ≡ with piece (word_at0 value) }
{
    if base::bit(Setup::ICW1, value) {
        return piece.text(b"ICW1");
    }
    if base::bit(Operation::OCW3, value) {
        return piece.text(b"OCW3");
    }
    piece.text(b"OCW2")
}

fn word_at_1(piece: Piece, stage: u8) -> Piece
    ensures { result ≡ with piece (word_at1 stage) }
{
    match stage {
        Setup::AWAITS_ICW2 => piece.text(b"ICW2"),
        Setup::AWAITS_ICW4 => piece.text(b"ICW4"),
        Setup::READY => piece.text(b"OCW1"),
        _ => piece.text(b"port 1"),
    }
}

fn word(piece: Piece, port: u8, value: u8, stage: u8) -> Piece
    ensures { result ≡ with piece (word_written port value stage) }
{
    match port {
        Controller::PORT_COMMAND => word_at_0(piece, value),
        Controller::PORT_MASK => word_at_1(piece, stage),
        _ => piece.text(b"port ").decimal(port as u64),
    }
}

pub(crate) fn write(port: u8, value: u8, stage: u8) -> Piece
    ensures { result ≡ piece (controller_write_done port value stage) }
{
    let writes = Piece::empty().text(b"controller writes ");
    word(writes, port, value, stage).text(b" ").hex(value)
}

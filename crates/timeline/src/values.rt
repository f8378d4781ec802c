// The line of a variable, 0 or 1 and its name; where it is not due, nothing.
ghost use Rattle.std.specs.Prelude.{◌≡◌, not, ◌||◌, eqb};
ghost use Rattle.base.specs.Bits.{bit, digit};
ghost use Rattle.text.specs.Line.{decimal};
ghost use Rattle.text.specs.Quoted.{quoted};
ghost use Rattle.page.specs.Pieces.{piece, with};
ghost use Rattle.timeline.specs.Variables.{numbered, bit_name};
ghost use Rattle.timeline.specs.Dump.{change, bit_changes};

use page::Piece;

// What a step goes from and to. It is told where it is another, or where all is told.
#[derive(Clone, Copy)]
pub(crate) struct Change<T> {
    pub(crate) all: bool,
    pub(crate) was: T,
    pub(crate) is: T,
}

fn value(front: Piece, is: bool) -> Piece
    ensures { result ≡ with front (decimal (digit is)) }
{
    front.decimal(is as u64)
}

impl<T: Copy> Change<T> {
    // What another thing goes from and to in the same step.
    pub(crate) fn of<U>(self, was: U, is: U) -> Change<U>
        ensures { result ≡ record { all = self.all; was = was; is = is } }
    {
        Change {
            all: self.all,
            was,
            is,
        }
    }
}

impl Change<bool> {
    fn is_due(self) -> bool
        ensures { result ≡ (self.all || not (eqb (digit self.was) (digit self.is))) }
    {
        self.all | (self.was != self.is)
    }

    pub(crate) fn output(self) -> Piece
        ensures { result ≡ piece (change self.all self.was self.is (quoted "o")) }
    {
        let none = Piece::empty();
        if self.is_due() {
            return value(none, self.is).text(b"o\n");
        }
        none
    }
}

impl Change<u8> {
    fn bit(self, k: u8) -> Change<bool>
        ensures { result ≡ record { all = self.all; was = bit k self.was; is = bit k self.is } }
    {
        self.of(base::bit(k, self.was), base::bit(k, self.is))
    }

    // Whether line n is in a set.
    pub(crate) fn of_line(self, front: Piece, letter: &[u8], n: u8) -> Piece
        ensures { result ≡ with front (change self.all (bit n self.was) (bit n self.is) (numbered letter.now n)) }
    {
        let line = self.bit(n);
        if line.is_due() {
            return value(front, line.is)
                .text(letter)
                .decimal(n as u64)
                .text(b"\n");
        }
        front
    }

    fn of_bit(self, front: Piece, letter: &[u8], n: u8, k: u8) -> Piece
        ensures { result ≡ with front (change self.all (bit k self.was) (bit k self.is) (bit_name letter.now n k)) }
    {
        let bit = self.bit(k);
        if bit.is_due() {
            let name = value(front, bit.is).text(letter).decimal(n as u64);
            return name.decimal(k as u64).text(b"\n");
        }
        front
    }

    // A number of a seat, the highest bit first.
    pub(crate) fn of_number(self, front: Piece, width: u8, letter: &[u8], n: u8) -> Piece
        ensures { result ≡ with front (bit_changes self.all letter.now n width self.was self.is) }
    {
        let mut said = front;
        for k in (0..width).rev() {
            said = self.of_bit(said, letter, n, k);
        }
        said
    }
}

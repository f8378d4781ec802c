// The first fault of a text.
ghost use Rattle.std.specs.Prelude.{◌≡◌};
ghost use Rattle.lesson.specs.Fault.{fault_of, faulty, next};
ghost use Rattle.lesson.specs.Fault.{after as Fault·after};

use crate::characters;

// Where reading stands: how many digits of the record are read, whether a line has ended since its first, and whether a comment
// goes on.
#[derive(Clone, Copy)]
pub(crate) struct Reading {
    pub(crate) digits: u8,
    pub(crate) cut: bool,
    pub(crate) comment: bool,
}

// Of the eight digits of a record, counted from 0.
const LAST_DIGIT: u8 = 7;

pub(crate) const START: Reading = Reading {
    digits: 0,
    cut: false,
    comment: false,
};

impl Reading {
    fn is_faulty(self, c: u8) -> bool
        ensures { result ≡ faulty self c }
    {
        if self.comment {
            return false;
        }
        if text::digit(c).is_some() {
            return self.cut;
        }
        if characters::is_apart(c) {
            return self.digits % 2 == 1;
        }
        true
    }

    fn counted(self) -> u8
        ensures { result ≡ next self.digits }
    {
        if self.digits < LAST_DIGIT {
            return self.digits + 1;
        }
        0
    }

    pub(crate) fn after(self, c: u8) -> Reading
        ensures { result ≡ Fault·after self c }
    {
        if characters::is_commented(self.comment, c) {
            return Reading {
                comment: true,
                ..self
            };
        }
        if text::digit(c).is_some() {
            return Reading {
                digits: self.counted(),
                comment: false,
                ..self
            };
        }
        if c == b'\n' {
            return Reading {
                cut: self.digits != 0,
                comment: false,
                ..self
            };
        }
        self
    }
}

pub(crate) fn first_fault(text: &[u8]) -> Option<usize>
    ensures { result ≡ fault_of text.now }
{
    let mut reading = START;
    for (i, c) in text.iter().enumerate() {
        if reading.is_faulty(*c) {
            return Some(i);
        }
        reading = reading.after(*c);
    }
    if reading.digits % 2 == 1 {
        return Some(text.len());
    }
    None
}

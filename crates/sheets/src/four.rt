// The four numbers that a settings line is written from, read character by character.
ghost use Rattle.std.specs.Prelude.{◌≡◌, ◌<◌, ◌≤◌};
ghost use Rattle.sheets.specs.Limits.{up_to};
ghost use Rattle.sheets.specs.Numbers.{no_numbers, spoilt, with_digit, with_blank, numbers_after, unread, four};
ghost use Rattle.sheets.specs.Numbers.{base as Numbers·base};
ghost use Rattle.sheets.specs.Replies.{NumbersReply};

use crate::{Numbers, answers};

// Places of the numbers, from 0.
const LCR: u8 = 2;

const ROOM: u8 = 3;

// Behind the last: the line is not four numbers, whatever follows.
const SPOILT: u8 = 4;

// A larger room is no more use.
const LONGEST_LINE: usize = 13;

fn base(place: u8) -> u8
    ensures { (result ≡ Numbers·base place) × (result ≤ 16) }
{
    if place == LCR {
        return 16;
    }
    10
}

pub(crate) fn byte(n: u16) -> u8
    ensures { result ≡ up_to 255 n }
{
    u8::try_from(n).unwrap_or(u8::MAX)
}

impl Numbers {
    pub fn start() -> Numbers
        ensures { result ≡ no_numbers }
    {
        Numbers {
            values: [0u16; 4],
            place: 0,
            begun: false,
        }
    }

    fn spoilt(mut self) -> Numbers
        ensures { result ≡ spoilt self }
    {
        self.place = SPOILT;
        self.begun = false;
        self
    }

    // One more digit of the number that is being read.
    fn with_digit(mut self, digit: u8) -> Numbers
        requires { self.place < 4 }
        ensures { result ≡ with_digit self digit }
    {
        let at = usize::from(self.place);
        let number = u32::from(base(self.place)) * u32::from(self.values[at]) + u32::from(digit);
        self.values[at] = number.min(u32::from(u16::MAX)) as u16;
        self.begun = true;
        self
    }

    fn with_blank(mut self) -> Numbers
        ensures { result ≡ with_blank self }
    {
        if self.begun & (self.place < ROOM) {
            self.place += 1;
            self.begun = false;
            return self;
        }
        self.spoilt()
    }

    pub fn after(self, c: u8) -> Numbers
        ensures { result ≡ numbers_after self c }
    {
        if SPOILT <= self.place {
            return self;
        }
        if c == b' ' {
            return self.with_blank();
        }
        match text::digit(c) {
            Some(digit) if digit < base(self.place) => self.with_digit(digit),
            _ => self.spoilt(),
        }
    }

    pub fn is_unread(self) -> bool
        ensures { result ≡ unread self }
    {
        (self.place == 0) & !self.begun
    }

    fn are_four(self) -> bool
        ensures { result ≡ four self }
    {
        (self.place == ROOM) & self.begun
    }

    // Puts the answer at the start of the array, and answers its length; of what is not four numbers, nothing.
    pub fn reply(self, out: &mut [u8; 20]) -> Option<usize>
        ensures { NumbersReply self out.old out.new result }
    {
        if !self.are_four() {
            return None;
        }
        let values = self.values;
        let room = usize::from(values[3]).min(LONGEST_LINE);
        let clock = byte(values[0]);
        let mut buffer = [0u8; 13];
        let written = setting_lines::write(values[1], byte(values[2]), clock, &mut buffer[..room]);
        Some(answers::put_written(out, written, &buffer))
    }
}

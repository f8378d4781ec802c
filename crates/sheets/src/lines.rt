// A settings line, read byte by byte.
ghost use Rattle.std.specs.Prelude.{◌≡◌, eqb};
ghost use Rattle.sheets.specs.Kept.{no_bytes, line_after, kept};
ghost use Rattle.sheets.specs.Replies.{LineReply};

use crate::{Line, answers};

const KEPT: usize = 14;

impl Line {
    pub fn start() -> Line
        ensures { result ≡ no_bytes }
    {
        Line {
            bytes: [0u8; 14],
            count: 0,
        }
    }

    pub fn after(mut self, c: u8) -> Line
        ensures { result ≡ line_after self c }
    {
        if self.count < KEPT {
            self.bytes[self.count] = c;
            self.count += 1;
        }
        self
    }

    pub fn is_empty(self) -> bool
        ensures { result ≡ eqb self.count 0 }
    {
        self.count == 0
    }

    // Puts the line's answer at the start of the array, and answers its length.
    pub fn reply(self, clock: u8, out: &mut [u8; 20]) -> usize
        ensures { LineReply (kept self) clock out.old out.new result }
    {
        let bytes = self.bytes;
        let count = self.count.min(KEPT);
        let setting = setting_lines::read(&bytes[..count], clock);
        answers::put_setting(out, setting)
    }
}

// What may be off with a character that arrives: the tests of 16, 17 and 18 (ticket 4 of document 02). That of 6 is a comparison, where it is refused.
ghost use Rattle.std.specs.Prelude.{◌≡◌};
ghost use Rattle.registers.specs.Words.{beyond_word, parity_unasked, break_with_data};

use crate::Settings;

impl Settings {
    pub(crate) fn is_beyond_word(self, byte: u8) -> bool
        ensures { result ≡ beyond_word self.lcr byte }
    {
        self.widest() < byte
    }

    pub(crate) fn is_parity_unasked(self, marks: u8) -> bool
        ensures { result ≡ parity_unasked self.lcr marks }
    {
        base::bit(base::MARK_PARITY, marks) & !base::bit(Settings::LCR_PARITY, self.lcr)
    }

    pub(crate) fn is_break_with_data(marks: u8, byte: u8) -> bool
        ensures { result ≡ break_with_data marks byte }
    {
        base::bit(base::MARK_BREAK, marks) & (byte != 0)
    }
}

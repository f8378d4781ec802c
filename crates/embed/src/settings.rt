// Settings lines for C: read into a divisor and an LCR byte, and written back from the two.
ghost use Rattle.embed.specs.Settings.{ReadsTold, WritesTold};

use crate::refused;
use base::Answer;

// A line into the divisor, which is the answer, and the LCR byte, which is stored where the caller asks and is 0 where the line is refused.
pub fn hailstoat_read_setting(line: &[u8], clock: u32, lcr: &mut u8) -> u64
    ensures { ReadsTold line.now clock lcr.new result }
{
    match setting_lines::read(line, c_word::as_byte(clock)) {
        Ok(setting) => {
            *lcr = setting.lcr;
            c_word::word(Answer::Divisor(setting.divisor), false)
        }
        Err(refusal) => {
            *lcr = 0;
            refused(refusal)
        }
    }
}

// The line of a divisor and an LCR byte, put at the start of the buffer; the answer is its length. In a refusal the buffer stays.
pub fn hailstoat_write_setting(divisor: u32, lcr: u32, clock: u32, buffer: &mut [u8]) -> u64
    ensures { WritesTold clock divisor lcr buffer.old buffer.new result }
{
    let written = setting_lines::write(
        c_word::as_divisor(divisor),
        c_word::as_byte(lcr),
        c_word::as_byte(clock),
        &mut *buffer,
    );
    match written {
        Ok(length) => c_word::word(Answer::Byte(length as u8), false),
        Err(refusal) => refused(refusal),
    }
}

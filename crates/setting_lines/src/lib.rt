// Settings lines of the control sheets: `9600,E,7,2` into a divisor and an LCR byte, and back.
#![tactic(auto)]

mod guesses;
mod lines;

ghost use Rattle.std.specs.Prelude.{◌≡◌, ◌≤◌};
ghost use Rattle.setting_lines.specs.Reading.{Reads};
ghost use Rattle.setting_lines.specs.Writing.{left, put_into, Writes};
ghost use Rattle.setting_lines.specs.Guess.{line_by};

use base::{Answer, Refusal};

// What a line says.
#[derive(Clone, Copy)]
pub struct Setting {
    pub divisor: u16,
    pub lcr: u8,
}

// Reads a line at a clock. Whatever is guessed of it counts only where the guess's own line is this one, to the letter.
pub fn read(line: &[u8], clock: u8) -> Result<Setting, Refusal>
    ensures { Reads line.now clock result }
{
    let guess = guesses::guess_line(line);
    let mut room = [0u8; 20];
    let own = lines::made_line(&mut room, guess.rate, guess.lcr);
    if line != own {
        return Err(Refusal::NoSetting);
    }
    let Answer::Divisor(divisor) = rates::divisor(guess.rate, clock) else {
        return Err(Refusal::NotListed);
    };
    Ok(Setting {
        divisor,
        lcr: guess.lcr,
    })
}

// The line is made beside the buffer, so that nothing is put where it has no room. It is copied from `room` itself: of a part that a call hands back, the
// compiler does not see that it lies apart from the buffer, and C would have to bring `memmove`.
fn write_line(rate: u32, lcr: u8, out: &mut [u8]) -> Result<usize, Refusal>
    requires { rate ≤ 999990 }
    ensures { left result out.new ≡ put_into out.old (line_by rate lcr) }
{
    let mut room = [0u8; 20];
    let length = lines::put_line(&mut room, rate, lcr);
    if out.len() < length {
        return Err(Refusal::NoRoom);
    }
    out[..length].copy_from_slice(&room[..length]);
    Ok(length)
}

// Puts the line at the start of the buffer, and answers its length. Where it is refused the buffer stays.
pub fn write(divisor: u16, lcr: u8, clock: u8, out: &mut [u8]) -> Result<usize, Refusal>
    ensures { Writes clock divisor lcr out.old out.new result }
{
    if !lines::is_good(lcr) {
        return Err(Refusal::NoSetting);
    }
    let rate = rates::rate(divisor, clock)?;
    write_line(rate, lcr, &mut *out)
}

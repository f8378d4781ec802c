// What of a line stands behind the digits before its number's last; and the line.
ghost use Rattle.std.specs.Prelude.{◌≡◌, ◌+◌, ◌≤◌, ◌<◌, leb, length};
ghost use Rattle.std.proofs.lemmas.List.Edits.{sets};
ghost use Rattle.text.specs.Line.{decimal, ending, Put};
ghost use Rattle.text.specs.Front.{line_after, rest};

use crate::numbers::{capital, digit_count, put_byte, put_bytes};
use base::Answer;

// No more bytes follow the digits before the last: the last, 3 of a refusal, and 8 more.
const REST: usize = 12;

// Puts what follows the refusal number.
fn put_ending(out: &mut [u8], at: usize, value: u16, output: bool) -> usize
    requires { at + 7 ≤ length out.old }
    ensures { (result ≡ at + 7) × (out.new ≡ sets out.old at (ending value output)) }
{
    let digits = u32::from(value);
    let high = capital(digits / 256);
    let middle = capital(digits / 16);
    let low = capital(digits);
    let shown = b'0' + u8::from(output);
    let ending = [b' ', high, middle, low, b' ', shown, b'\n'];
    put_bytes(&mut *out, at, &ending)
}

fn write_after(
    out: &mut [u8],
    at: usize,
    front: &[u8],
    n: u64,
    answer: Answer,
    output: bool,
) -> usize
    requires { at + length (line_after front.now n answer output) ≤ length out.old }
    ensures { (result ≡ at + length (line_after front.now n answer output)) × (out.new ≡ sets out.old at (line_after front.now n answer output)) }
{
    let refusal = answer.refusal();
    let value = answer.value();
    let a = put_bytes(&mut *out, at, front);
    out[a] = b'0' + (n % 10) as u8;
    out[a + 1] = b' ';
    let b = put_byte(&mut *out, a + 2, refusal);
    put_ending(&mut *out, b, value, output)
}

// Whether `room` bytes hold the line. Where they hold any that begins with so many digits, none is counted.
fn holds(room: usize, digits: usize, refusal: u8) -> bool
    ensures { result ≡ leb (digits + length (decimal refusal) + 9) room }
{
    if room < digits {
        return false;
    }
    if REST <= room - digits {
        return true;
    }
    digit_count(u64::from(refusal)) + 9 <= room - digits
}

// Puts a line whose number has the digits `front` before the last of n at `at`, and answers the place after it. Where it does
// not fit, the buffer stays and the answer is `at`.
pub fn put_after(
    out: &mut [u8],
    at: usize,
    front: &[u8],
    n: u64,
    answer: Answer,
    output: bool,
) -> usize
    ensures { Put (line_after front.now n answer output) (length front.now + rest) out.old out.new at result }
{
    let length = out.len();
    let refusal = answer.refusal();
    if length < at {
        return at;
    }
    if holds(length - at, front.len(), refusal) {
        return write_after(&mut *out, at, front, n, answer, output);
    }
    at
}

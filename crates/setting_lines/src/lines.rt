// The line of a rate and an LCR byte.
ghost use Rattle.std.specs.Prelude.{◌≡◌, ◌+◌, ◌≤◌, length};
ghost use Rattle.std.proofs.lemmas.List.Edits.{sets};
ghost use Rattle.setting_lines.specs.Fields.{rate_text, stop_text};
ghost use Rattle.setting_lines.specs.Guess.{good, letter_by, shape_by, line_by};

use base::bit;

// The bit that chooses the longer stop.
const LCR_STOP: u8 = 2;

// "bits 7-6 are 0", and bits 5-3 are 000 or end in 1.
pub(crate) fn is_good(lcr: u8) -> bool
    ensures { result ≡ good lcr }
{
    let code = lcr / 8;
    (lcr < 64) & ((code == 0) | (code % 2 == 1))
}

fn letter(code: u8) -> u8
    ensures { result ≡ letter_by code }
{
    match code {
        0b001 => b'O',
        0b011 => b'E',
        0b101 => b'M',
        0b111 => b'S',
        _ => b'N',
    }
}

// Puts a text behind `at`, and answers the place after it.
fn put_text(room: &mut [u8; 20], at: usize, text: &[u8]) -> usize
    requires { at + length text.now ≤ 20 }
    ensures { (result ≡ at + length text.now) × (room.new ≡ sets room.old at text.now) }
{
    let end = at + text.len();
    room[at..end].copy_from_slice(text);
    end
}

fn put_rate(room: &mut [u8; 20], rate: u32) -> usize
    requires { rate ≤ 999990 }
    ensures { (result ≡ length (rate_text rate)) × (room.new ≡ sets room.old 0 (rate_text rate)) }
{
    if rate == 1345 {
        return put_text(&mut *room, 0, b"134.5");
    }
    let n = rate / 10;
    let last = text::put_front(&mut *room, u64::from(n));
    room[last] = b'0' + (n % 10) as u8;
    last + 1
}

fn stop(bits: u8, longer: bool) -> &'static [u8]
    ensures { result.now ≡ stop_text bits longer }
{
    match (longer, bits) {
        (false, _) => b"1",
        (true, 5) => b"1.5",
        (true, _) => b"2",
    }
}

fn put_shape(room: &mut [u8; 20], at: usize, lcr: u8) -> usize
    requires { at ≤ 5 }
    ensures { (result ≡ at + length (shape_by lcr)) × (room.new ≡ sets room.old at (shape_by lcr)) }
{
    let bits = 5 + lcr % 4;
    let fields = [b',', letter(lcr / 8 % 8), b',', b'0' + bits, b','];
    let behind = put_text(&mut *room, at, &fields);
    put_text(&mut *room, behind, stop(bits, bit(LCR_STOP, lcr)))
}

// Puts the line at the start of an array that holds any, and answers its length.
pub(crate) fn put_line(room: &mut [u8; 20], rate: u32, lcr: u8) -> usize
    requires { rate ≤ 999990 }
    ensures { (result ≡ length (line_by rate lcr)) × (room.new ≡ sets room.old 0 (line_by rate lcr)) }
{
    let at = put_rate(&mut *room, rate);
    put_shape(&mut *room, at, lcr)
}

// The same, and answers the line.
pub(crate) fn made_line(room: &mut [u8; 20], rate: u32, lcr: u8) -> &[u8]
    requires { rate ≤ 999990 }
    ensures { result.now ≡ line_by rate lcr }
{
    let end = put_line(&mut *room, rate, lcr);
    &room[..end]
}

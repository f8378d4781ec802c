// Answers as text, each at the start of an array that holds any.
ghost use Rattle.std.specs.Prelude.{◌≡◌, [], ◌∷◌, ◌++◌, ◌+◌, ◌≤◌, length};
ghost use Rattle.std.proofs.lemmas.List.Edits.{sets};
ghost use Rattle.text.specs.Line.{newline, decimal};
ghost use Rattle.base.specs.Refusals.{number_of};
ghost use Rattle.setting_lines.specs.Writing.{length_in};
ghost use Rattle.sheets.specs.Texts.{no_refusal, figures, setting_text, written_text, AtStart};

use base::Refusal;
use setting_lines::Setting;

fn put_text(out: &mut [u8; 20], at: usize, bytes: &[u8]) -> usize
    requires { at + length bytes.now ≤ 20 }
    ensures { (result ≡ at + length bytes.now) × (out.new ≡ sets out.old at bytes.now) }
{
    let end = at + bytes.len();
    out[at..end].copy_from_slice(bytes);
    end
}

fn put_number(out: &mut [u8; 20], at: usize, n: u16) -> usize
    requires { at ≤ 15 }
    ensures { (result ≡ at + length (decimal n)) × (out.new ≡ sets out.old at (decimal n)) × (result ≤ at + 5) }
{
    let mut own = [0u8; 20];
    let last = text::put_front(&mut own, u64::from(n));
    own[last] = b'0' + (n % 10) as u8;
    put_text(&mut *out, at, &own[..=last])
}

fn put_figures(out: &mut [u8; 20], setting: Setting) -> usize
    ensures { AtStart (no_refusal ++ figures setting.divisor setting.lcr) out.old out.new result }
{
    let byte = u32::from(setting.lcr);
    let end = [b' ', text::capital(byte / 16), text::capital(byte), b'\n'];
    let from = put_text(&mut *out, 0, b"0 ");
    let at = put_number(&mut *out, from, setting.divisor);
    put_text(&mut *out, at, &end)
}

fn put_refusal(out: &mut [u8; 20], refusal: Refusal, end: &[u8]) -> usize
    requires { length end.now ≤ 5 }
    ensures { AtStart (decimal (number_of refusal) ++ end.now) out.old out.new result }
{
    let at = put_number(&mut *out, 0, u16::from(refusal.number()));
    put_text(&mut *out, at, end)
}

pub(crate) fn put_setting(out: &mut [u8; 20], setting: Result<Setting, Refusal>) -> usize
    ensures { AtStart (setting_text setting) out.old out.new result }
{
    match setting {
        Ok(setting) => put_figures(&mut *out, setting),
        Err(refusal) => put_refusal(&mut *out, refusal, b" - -\n"),
    }
}

fn put_line(out: &mut [u8; 20], line: &[u8]) -> usize
    requires { length line.now ≤ 13 }
    ensures { AtStart (no_refusal ++ (line.now ++ (newline ∷ []))) out.old out.new result }
{
    let from = put_text(&mut *out, 0, b"0 ");
    let at = put_text(&mut *out, from, line);
    put_text(&mut *out, at, b"\n")
}

pub(crate) fn put_written(
    out: &mut [u8; 20],
    written: Result<usize, Refusal>,
    buffer: &[u8],
) -> usize
    requires { (length_in written ≤ 13) × (length_in written ≤ length buffer.now) }
    ensures { AtStart (written_text written buffer.now) out.old out.new result }
{
    match written {
        Ok(length) => put_line(&mut *out, &buffer[..length]),
        Err(refusal) => put_refusal(&mut *out, refusal, b" -\n"),
    }
}

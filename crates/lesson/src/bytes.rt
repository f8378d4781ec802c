// The bytes of a text that has no fault.
ghost use Rattle.std.specs.Prelude.{◌≡◌, ◌≤◌, ◌<◌, IfSome, None, length};
ghost use Rattle.std.proofs.lemmas.List.Edits.{sets};
ghost use Rattle.base.specs.Pick.{pick};
ghost use Rattle.lesson.specs.Text.{bytes_of, digits_of};
ghost use Rattle.text.specs.Hex.{digit_of};

use crate::characters;

// What the character is worth where it is a digit and no comment has it.
fn worth(comment: bool, c: u8) -> Option<u8>
    ensures { (result ≡ pick comment None (digit_of c)) × IfSome result (λ d. d < 16) }
{
    if comment { None } else { text::digit(c) }
}

pub(crate) fn count_digits(text: &[u8]) -> usize
    ensures { result ≡ length (digits_of text.now) }
{
    let mut comment = false;
    let mut count: usize = 0;
    for c in text {
        comment = characters::is_commented(comment, *c);
        if worth(comment, *c).is_some() {
            count += 1;
        }
    }
    count
}

// `high` is the first digit of a byte whose second is still to come.
pub(crate) fn put_bytes(text: &[u8], out: &mut [u8])
    requires { length (bytes_of text.now) ≤ length out.old }
    ensures { out.new ≡ sets out.old 0 (bytes_of text.now) }
{
    let mut comment = false;
    let mut high = None;
    let mut at: usize = 0;
    for c in text {
        comment = characters::is_commented(comment, *c);
        let Some(low) = worth(comment, *c) else {
            continue;
        };
        let Some(first) = high else {
            high = Some(low);
            continue;
        };
        out[at] = 16 * first + low;
        at += 1;
        high = None;
    }
}

// When a save is due, as its first word says it.
ghost use Rattle.std.specs.Prelude.{◌≡◌, ◌≤◌};
ghost use Rattle.options.specs.Moments.{same_bytes, with_digit, number_from, number_of, moment_of};

use crate::Moment;

// 2 to the power of 60: no run has as many records.
const MANY: u64 = 1152921504606846976;

pub(crate) fn is_word(word: &[u8], text: &[u8]) -> bool
    ensures { result ≡ same_bytes word.now text.now }
{
    word == text
}

fn with_digit(n: u64, digit: u8) -> u64
    requires { (n ≤ 11529215046068469769) × (digit ≤ 9) }
    ensures { (result ≡ with_digit n digit) × (result ≤ 11529215046068469769) }
{
    if n < MANY {
        return 10 * n + u64::from(digit);
    }
    n
}

// Behind the record of the number that the digits are.
fn counted(word: &[u8]) -> Option<Moment>
    ensures { result ≡ number_from 0 word.now }
{
    let mut n: u64 = 0;
    for c in word {
        let digit = text::digit(*c)?;
        if 10 <= digit {
            return None;
        }
        n = with_digit(n, digit);
    }
    Some(Moment::Behind(n + 1))
}

fn number(word: &[u8]) -> Option<Moment>
    ensures { result ≡ number_of word.now }
{
    if word.is_empty() {
        return None;
    }
    counted(word)
}

pub(crate) fn read(word: &[u8]) -> Option<Moment>
    ensures { result ≡ moment_of word.now }
{
    if is_word(word, b"start") {
        return Some(Moment::Behind(0));
    }
    if is_word(word, b"end") {
        return Some(Moment::End);
    }
    number(word)
}

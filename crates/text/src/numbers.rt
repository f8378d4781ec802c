// Numbers as digits: in decimal, put into a lent buffer; and a hexadecimal digit.
ghost use Rattle.std.specs.Prelude.{◌≡◌, ◌+◌, ◌%◌, ◌≤◌, length};
ghost use Rattle.std.proofs.lemmas.List.Edits.{sets};
ghost use Rattle.text.specs.Line.{decimal};
ghost use Rattle.text.specs.Line.{capital as Line·capital};
ghost use Rattle.text.specs.Front.{front};

// The last hexadecimal digit of a number, a capital from ten on.
pub fn capital(number: u32) -> u8
    ensures { result ≡ Line·capital (number % 16) }
{
    let digits = b"0123456789ABCDEF";
    digits[(number % 16) as usize]
}

// The number of decimal digits.
pub(crate) fn digit_count(n: u64) -> usize
    ensures { result ≡ length (decimal n) }
{
    if n < 10 {
        return 1;
    }
    digit_count(n / 10) + 1
}

// Puts n in decimal at `at`, and answers the place after it.
fn put_decimal(out: &mut [u8], at: usize, n: u64) -> usize
    requires { at + length (decimal n) ≤ length out.old }
    ensures { (result ≡ at + length (decimal n)) × (out.new ≡ sets out.old at (decimal n)) }
{
    if n < 10 {
        out[at] = b'0' + (n % 10) as u8;
        return at + 1;
    }
    let end = put_decimal(&mut *out, at, n / 10);
    out[end] = b'0' + (n % 10) as u8;
    end + 1
}

// A byte in decimal. Nearly all that are put have one digit, for which nothing is called.
pub(crate) fn put_byte(out: &mut [u8], at: usize, n: u8) -> usize
    requires { at + length (decimal n) ≤ length out.old }
    ensures { (result ≡ at + length (decimal n)) × (out.new ≡ sets out.old at (decimal n)) }
{
    if n < 10 {
        out[at] = b'0' + n;
        return at + 1;
    }
    put_decimal(&mut *out, at, u64::from(n))
}

// The digits of n before its last, at the start of `text`; and how many they are.
pub fn put_front(text: &mut [u8; 20], n: u64) -> usize
    ensures { (result ≡ length (front n)) × (text.new ≡ sets text.old 0 (front n)) }
{
    if n < 10 {
        return 0;
    }
    put_decimal(&mut *text, 0, n / 10)
}

pub(crate) fn put_bytes(out: &mut [u8], at: usize, bytes: &[u8]) -> usize
    requires { at + length bytes.now ≤ length out.old }
    ensures { (result ≡ at + length bytes.now) × (out.new ≡ sets out.old at bytes.now) }
{
    let end = at + bytes.len();
    out[at..end].copy_from_slice(bytes);
    end
}

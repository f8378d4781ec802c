// A guess at the setting of a line: right wherever the line is one of a setting, and some setting elsewhere.
ghost use Rattle.std.specs.Prelude.{◌≡◌, ◌+◌, ◌≤◌, length};
ghost use Rattle.text.proofs.FormLaws.{denoted};
ghost use Rattle.setting_lines.specs.Guess.{behind_rate, halved, code_by, lcr_guess, rate_guess, guess_at, guessed};

#[derive(Clone, Copy)]
pub(crate) struct Guess {
    pub(crate) rate: u32,
    pub(crate) lcr: u8,
}

const SOME_GUESS: Guess = Guess { rate: 10, lcr: 0 };

// No rate has more bytes.
const LONGEST_RATE: usize = 5;

// How many bytes stand behind the rate: `,N,5,1.5`, which alone ends in 5, or `,N,5,1`.
fn behind_rate(line: &[u8]) -> usize
    ensures { result ≡ behind_rate line.now }
{
    match line.last() {
        Some(c) if *c == b'5' => 8,
        _ => 6,
    }
}

// What the characters before the shape denote, taken as digits.
fn number(front: &[u8]) -> u32
    requires { length front.now ≤ 5 }
    ensures { result ≡ denoted 0 front.now }
{
    let mut n: u32 = 0;
    for c in front {
        n = 10 * n + u32::from(c.saturating_sub(b'0'));
    }
    n
}

fn is_halved(front: &[u8]) -> bool
    ensures { result ≡ halved front.now }
{
    front.len() == LONGEST_RATE && front[3] == b'.'
}

fn rate(front: &[u8]) -> u32
    requires { length front.now ≤ 5 }
    ensures { result ≡ rate_guess front.now }
{
    if is_halved(front) {
        return 1345;
    }
    match number(front) {
        n @ 1..=99999 => 10 * n,
        _ => 10,
    }
}

// LCR bits 5-3 of a letter; 000 of one that is none.
fn code(c: u8) -> u8
    ensures { result ≡ code_by c }
{
    match c {
        b'O' => 0b001,
        b'E' => 0b011,
        b'M' => 0b101,
        b'S' => 0b111,
        _ => 0b000,
    }
}

fn lcr(parity: u8, bits: u8, longer: bool) -> u8
    ensures { result ≡ lcr_guess parity bits longer }
{
    bits.saturating_sub(b'5') % 4 + 4 * u8::from(longer) + 8 * code(parity)
}

fn guess_at(line: &[u8], front: usize, behind: usize) -> Guess
    requires { (front ≤ 5) × (front + 6 ≤ length line.now) }
    ensures { result ≡ guess_at line.now front behind }
{
    let longer = behind == 8 || line[front + 5] == b'2';
    Guess {
        rate: rate(&line[..front]),
        lcr: lcr(line[front + 1], line[front + 3], longer),
    }
}

pub(crate) fn guess_line(line: &[u8]) -> Guess
    ensures { result ≡ guessed line.now }
{
    let behind = behind_rate(line);
    if line.len() <= behind {
        return SOME_GUESS;
    }
    let front = line.len() - behind;
    if LONGEST_RATE < front {
        return SOME_GUESS;
    }
    guess_at(line, front, behind)
}

// The divisor list: eighteen rates, a divisor for each at the first clock, and for all but the last at the other two.
#![tactic(auto)]

ghost use Rattle.std.specs.Prelude.{◌≡◌, MatchOption};
ghost use Rattle.base.specs.Refusals.{not_listed_number};
ghost use Rattle.base.specs.declared.Answer.TheVariants.{Divisor, Refused};
ghost use Rattle.rates.specs.Rates.{divisors_of, divisor_of, rate_of};

use base::{Answer, Refusal};

// "Rates in tenths of a baud", so that 134.5 baud is a whole number too.
pub const RATES: [u32; 18] = [
    500, 750, 1100, 1345, 1500, 3000, 6000, 12000, 18000, 20000, 24000, 36000, 48000, 72000, 96000,
    192000, 384000, 560000,
];

// "1.8432 MHz"
const FIRST: [u16; 18] = [
    2304, 1536, 1047, 857, 768, 384, 192, 96, 64, 58, 48, 32, 24, 16, 12, 6, 3, 2,
];

// "2.4576 MHz"
const SECOND: [u16; 17] = [
    3072, 2048, 1396, 1142, 1024, 512, 256, 128, 85, 77, 64, 43, 32, 21, 16, 8, 4,
];

// "3.072 MHz"
const THIRD: [u16; 17] = [
    3840, 2560, 1745, 1428, 1280, 640, 320, 160, 107, 96, 80, 53, 40, 27, 20, 10, 5,
];

// "Clocks are numbered 0 to 2": no other number has a divisor.
fn divisors(clock: u8) -> &'static [u16]
    ensures { result.now ≡ divisors_of clock }
{
    match clock {
        0 => &FIRST,
        1 => &SECOND,
        2 => &THIRD,
        _ => &[],
    }
}

// The divisor in the row of the rate.
fn listed(rate: u32, clock: u8) -> Option<u16>
    ensures { MatchOption result (divisor_of rate clock ≡ Refused not_listed_number) (λ d. divisor_of rate clock ≡ Divisor d) }
{
    let row = RATES.iter().position(|r| *r == rate)?;
    divisors(clock).get(row).copied()
}

// "rate or clock not in the divisor list": refused.
pub fn divisor(rate: u32, clock: u8) -> Answer
    ensures { result ≡ divisor_of rate clock }
{
    match listed(rate, clock) {
        Some(divisor) => Answer::Divisor(divisor),
        None => Answer::Refused(Refusal::NotListed.number()),
    }
}

// The way back: the rate of a divisor, in tenths of a baud.
pub fn rate(divisor: u16, clock: u8) -> Result<u32, Refusal>
    ensures { result ≡ rate_of divisor clock }
{
    match divisors(clock).iter().position(|d| *d == divisor) {
        Some(row) => Ok(RATES[row]),
        None => Err(Refusal::NotListed),
    }
}

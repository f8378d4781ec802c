// What C and the rooms have between them: C's numbers of 32 bits as the rooms take them, and the one word that C is answered with.
#![tactic(auto)]

ghost use Rattle.std.specs.Prelude.{◌≡◌};
ghost use Rattle.c_word.specs.Word.{Tells};
ghost use Rattle.c_word.specs.Numbers.{as_byte, as_divisor};

use base::Answer;

// Each number that is past a byte becomes 255, which the rooms refuse, or do not look at, as they would it.
#[tactic(auto, unfolding(crate::specs::Numbers::up_to))]
pub fn as_byte(n: u32) -> u8
    ensures { result ≡ as_byte n }
{
    n.min(255) as u8
}

// Each number that is past two bytes becomes 65535, which is listed at no clock, as it is not.
#[tactic(auto, unfolding(crate::specs::Numbers::up_to))]
pub fn as_divisor(n: u32) -> u16
    ensures { result ≡ as_divisor n }
{
    n.min(65535) as u16
}

pub fn word(answer: Answer, output: bool) -> u64
    ensures { Tells result answer output }
{
    let high = u8::from(output);
    let Answer::Letter(byte, figures) = answer else {
        let value = answer.value();
        let refusal = answer.refusal();
        return value as u64 + 0x10000 * refusal as u64 + 0x1000000 * high as u64;
    };
    let lower = byte as u64 + 0x1000000 * high as u64;
    lower + 0x100000000 * figures.marks as u64 + 0x10000000000 * figures.behind as u64
}

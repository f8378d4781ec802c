// What is seen of a bench, reduced to one number, and its letters, to another.
ghost use Rattle.std.specs.Prelude.{◌≡◌, ◌+◌, ◌*◌, ◌%◌};
ghost use Rattle.base.specs.Bits.{digit};
ghost use Rattle.base.specs.Pick.{pick};
ghost use Rattle.base.specs.Answers.{refusal_of, value_of, figures_of, is_letter};

use base::Answer;

// "(digest * 1000003 + v + 1) % 2147483647"
pub fn add(digest: u32, v: u32) -> u32
    ensures { result ≡ (digest * 1000003 + v + 1) % 2147483647 }
{
    ((digest as u64 * 1000003 + v as u64 + 1) % 2147483647) as u32
}

// "refusal * 8192 + answer * 2 + output"
pub fn outcome_mark(answer: Answer, output: bool) -> u32
    ensures { result ≡ refusal_of answer * 8192 + value_of answer * 2 + digit output }
{
    answer.refusal() as u32 * 8192 + answer.value() as u32 * 2 + output as u32
}

// "refusal * 4096 + answer"
pub fn place_mark(place: Answer) -> u32
    ensures { result ≡ refusal_of place * 4096 + value_of place }
{
    place.refusal() as u32 * 4096 + place.value() as u32
}

// "add(1 + 256 * marks + behind) if it was answered with a letter, else add(0)": what is added.
pub fn letter_mark(answer: Answer) -> u32
    ensures { result ≡ pick (is_letter answer) (1 + 256 * (figures_of answer).marks + (figures_of answer).behind) 0 }
{
    let Answer::Letter(_, figures) = answer else {
        return 0;
    };
    1 + 256 * figures.marks as u32 + figures.behind as u32
}

// Where the comment of a record stands: right behind its last digit, on the same line.
ghost use Rattle.std.specs.Prelude.{◌≡◌, ◌≤◌, false, length, not, position};
ghost use Rattle.lesson.specs.Comments.{due_behind, reach, place_after, goes_on, run_end, comment_at};

use crate::causes::character_at;
use crate::{Comment, characters};

// How many digits are due behind one more character.
fn due_behind(comment: bool, c: u8, due: usize) -> usize
    requires { 1 ≤ due }
    ensures { result ≡ due_behind comment c due }
{
    if comment | text::digit(c).is_none() {
        return due;
    }
    due - 1
}

// How many characters a text has up to right behind so many digits; all of them, where it has fewer.
fn reach(text: &[u8], digits: usize) -> usize
    ensures { (result ≡ reach false digits text.now) × (result ≤ length text.now) }
{
    let mut comment = false;
    let mut due = digits;
    for (i, c) in text.iter().enumerate() {
        if due == 0 {
            return i;
        }
        comment = characters::is_commented(comment, *c);
        due = due_behind(comment, *c, due);
    }
    text.len()
}

// The place right behind so many more digits outside comments, from a place that no comment has; the text's end where there are fewer.
pub fn behind(text: &[u8], from: usize, digits: usize) -> usize
    ensures { (result ≡ place_after text.now from digits) × (result ≤ length text.now) }
{
    let start = from.min(text.len());
    start + reach(&text[start..], digits)
}

#[tactic(auto, using(std::proofs::lemmas::Bool::Decides::nat_tests, base::specs::PickLaws::tests), unfolding(crate::specs::Comments::goes_on))]
fn goes_on(comment: bool, c: u8) -> bool
    ensures { result ≡ goes_on comment c }
{
    if comment {
        return !matches!(c, b'\r' | b'\n');
    }
    matches!(c, b' ' | b'\t' | b'\r')
}

// The first character that doesn't go on.
fn run_stop(comment: bool, text: &[u8]) -> Option<usize>
    ensures { result ≡ position (λ c. not (goes_on comment c)) text.now }
{
    text.iter().position(|c| !goes_on(comment, *c))
}

fn run_end(comment: bool, text: &[u8], from: usize) -> usize
    requires { from ≤ length text.now }
    ensures { (result ≡ run_end comment text.now from) × (from ≤ result) × (result ≤ length text.now) }
{
    match run_stop(comment, &text[from..]) {
        Some(length) => from + length,
        None => text.len(),
    }
}

// The comment that follows a place on its line.
pub fn comment_at(text: &[u8], at: usize) -> Comment
    ensures { (result ≡ comment_at text.now at) × (result.from ≤ result.end) × (result.end ≤ length text.now) }
{
    let from = run_end(false, text, at.min(text.len()));
    if character_at(text, from) == b'#' {
        let end = run_end(true, text, from);
        return Comment { from, end };
    }
    Comment { from, end: from }
}

// Single characters of the text.
ghost use Rattle.std.specs.Prelude.{◌≡◌};
ghost use Rattle.lesson.specs.Text.{commented};
ghost use Rattle.lesson.specs.Text.{apart as Text·apart};

// What may stand between two bytes: white space, and a comment's first character.
pub(crate) fn is_apart(c: u8) -> bool
    ensures { result ≡ Text·apart c }
{
    matches!(c, b' ' | b'\t' | b'\r' | b'\n' | b'#')
}

// Whether a character belongs to a comment, given whether the one before it does.
pub(crate) fn is_commented(comment: bool, c: u8) -> bool
    ensures { result ≡ commented comment c }
{
    match c {
        b'#' => true,
        b'\n' => false,
        _ => comment,
    }
}

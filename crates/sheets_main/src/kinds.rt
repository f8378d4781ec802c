// The two kinds of sheets: settings lines at a clock, or lines of four numbers.
ghost use Rattle.std.specs.Prelude.{◌≡◌, ◌≤◌, length, IfSome};

use sheets::{Line, Numbers};

// The line that is being read: by its bytes in a sheet of settings lines, by its numbers in the other.
#[derive(Clone, Copy)]
pub(crate) enum Sheet {
    Lines(u8, Line),
    Numbers(Numbers),
}

impl Sheet {
    pub(crate) fn of_lines(clock: u8) -> Sheet {
        Sheet::Lines(clock, Line::start())
    }

    pub(crate) fn of_numbers() -> Sheet {
        Sheet::Numbers(Numbers::start())
    }

    // At the start of the next line.
    pub(crate) fn next(self) -> Sheet {
        match self {
            Sheet::Lines(clock, _) => Sheet::of_lines(clock),
            Sheet::Numbers(_) => Sheet::of_numbers(),
        }
    }

    pub(crate) fn after(self, c: u8) -> Sheet {
        match self {
            Sheet::Lines(clock, line) => Sheet::Lines(clock, line.after(c)),
            Sheet::Numbers(numbers) => Sheet::Numbers(numbers.after(c)),
        }
    }

    pub(crate) fn is_empty(self) -> bool {
        match self {
            Sheet::Lines(_, line) => line.is_empty(),
            Sheet::Numbers(numbers) => numbers.is_unread(),
        }
    }

    // The length of the answer, where there is one.
    pub(crate) fn reply(self, out: &mut [u8; 20]) -> Option<usize>
        ensures { IfSome result (λ n. n ≤ 16) × (length out.new ≡ length out.old) }
    {
        match self {
            Sheet::Lines(clock, line) => Some(line.reply(clock, out)),
            Sheet::Numbers(numbers) => numbers.reply(out),
        }
    }
}

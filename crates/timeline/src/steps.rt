// The steps of a timeline: the time, and the lines of what has changed since the step before.
ghost use Rattle.std.specs.Prelude.{◌≡◌};
ghost use Rattle.page.specs.Pieces.{piece};
ghost use Rattle.page.specs.Pages.{no_page, put};
ghost use Rattle.timeline.specs.Variables.{each, scope_count, line_variables, seat_variables, scope_variables, variables};
ghost use Rattle.timeline.specs.Dump.{told, time, first_words, step_words};

use crate::values::Change;
use crate::{LINES, SCOPES};
use page::{Page, Piece};
use sight::Sight;

impl Change<Sight> {
    fn line(self, n: u8) -> Piece
        ensures { result ≡ piece (told self.all self.was self.is (line_variables n)) }
    {
        let was = self.was;
        let is = self.is;
        let none = Piece::empty();
        let level = self.of(was.levels, is.levels).of_line(none, b"l", n);
        let request = self.of(was.requests, is.requests).of_line(level, b"r", n);
        let service = self.of(was.service, is.service).of_line(request, b"s", n);
        self.of(was.mask, is.mask).of_line(service, b"m", n)
    }

    fn seat(self, used: u8, n: u8) -> Piece
        ensures { result ≡ piece (told self.all self.was self.is (seat_variables used n)) }
    {
        let none = Piece::empty();
        if base::bit(n, used) {
            let was = self.was.look_at(n);
            let is = self.is.look_at(n);
            let lsr = self.of(was.lsr, is.lsr).of_number(none, 8, b"L", n);
            return self.of(was.queued, is.queued).of_number(lsr, 5, b"q", n);
        }
        none
    }

    fn scope(self, used: u8, k: u8) -> Piece
        ensures { result ≡ piece (told self.all self.was self.is (scope_variables used k)) }
    {
        if k < LINES {
            return self.line(k);
        }
        self.seat(used, k - LINES)
    }

    fn scopes(self, page: Page, used: u8) -> Page
        ensures { result ≡ put page (told self.all self.was self.is (each scope_count (scope_variables used))) }
    {
        let mut told = page;
        for k in 0..SCOPES {
            told = told.add(self.scope(used, k));
        }
        told
    }

    fn tell(self, page: Page, used: u8) -> Page
        ensures { result ≡ put page (told self.all self.was self.is (variables used)) }
    {
        let output = self.of(self.was.output, self.is.output);
        self.scopes(page.add(output.output()), used)
    }
}

fn at(n: u64) -> Page
    ensures { result ≡ put no_page (time n) }
{
    let time = Piece::empty().text(b"#").decimal(n).text(b"\n");
    Page::empty().add(time)
}

// Every variable as it stands before the first record.
pub fn first(used: u8, now: Sight) -> Page
    ensures { result ≡ put no_page (first_words used now) }
{
    let whole = Change {
        all: true,
        was: now,
        is: now,
    };
    whole.tell(at(0), used)
}

// The variables that record n has changed; the first record is number 1.
pub fn step(used: u8, n: u64, before: Sight, now: Sight) -> Page
    ensures { result ≡ put no_page (step_words used n before now) }
{
    let change = Change {
        all: false,
        was: before,
        is: now,
    };
    change.tell(at(n), used)
}

// The time behind the last step, so that this one is seen.
pub fn last(n: u64) -> Page
    ensures { result ≡ put no_page (time n) }
{
    at(n)
}

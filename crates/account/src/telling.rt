// A record told, as it is done.
ghost use Rattle.std.specs.Prelude.{◌≡◌, []};
ghost use Rattle.records.specs.Events.{record_of, short};
ghost use Rattle.bench.specs.Steps.{outcome};
ghost use Rattle.account.specs.Told.{channel_at, divisor_at, told};

use crate::{Told, heads};
use base::Whole;
use bench::{Bench, Outcome};
use channel::Channel;
use records::Event;
use registers::Settings;

// A line of the listing has no more bytes.
const LONGEST_LINE: usize = 31;

fn channel_at(bench: Bench, n: u8) -> Channel
    ensures { result ≡ channel_at bench n }
{
    bench.seats[bench::chair(n)].channel
}

fn divisor_at(bench: Bench, n: u8) -> bool
    ensures { result ≡ divisor_at bench n }
{
    if records::SEATS <= n as usize {
        return false;
    }
    base::bit(Settings::LCR_DIVISOR, channel_at(bench, n).settings.lcr)
}

// A record as the listing answers it. A program that lists and tells has its step in that one place, where it is compiled into the loop.
fn answered(bench: Bench, n: u64, whole: Whole) -> Outcome
    ensures { result ≡ outcome bench (record_of whole) }
{
    let bytes = [whole.kind, whole.seat, whole.number, whole.value];
    let mut line = [0u8; LONGEST_LINE];
    let ran = listing::run(bench, n, &bytes, true, &mut line);
    let next = ran.bench;
    Outcome {
        bench: next,
        answer: ran.answer,
        output: next.controller.output(),
    }
}

// A record of four bytes, which has this number in the listing.
pub fn record(bench: Bench, n: u64, whole: Whole, comment: &[u8]) -> Told
    ensures { (result.bench ≡ (outcome bench (record_of whole)).bench) × (result.page ≡ told bench n (record_of whole) comment.now) }
{
    let Whole {
        kind,
        seat,
        number,
        ..
    } = whole;
    let before = channel_at(bench, seat);
    let divisor = divisor_at(bench, seat);
    let stepped = answered(bench, n, whole);
    let next = stepped.bench;
    let answer = stepped.answer;
    let head = heads::begun(n, answer, stepped.output);
    let selected = bench.controller.operation.selected;
    let empty = before.receiver.is_empty();
    let done = deeds::done(whole, divisor, bench.controller);
    let came = answers::came(kind, number, divisor, selected, empty, answer);
    let moved = moves::at_seat(
        head.join(done).join(came),
        before,
        channel_at(next, seat),
        kind,
        seat,
    );
    let all = moves::at_controller(moved, bench.controller, next.controller);
    Told {
        bench: next,
        page: all.comment(comment).end(),
    }
}

// A record of one to three bytes at the end; there is no comment of it.
pub fn short(bench: Bench, n: u64) -> Told
    ensures { (result.bench ≡ (outcome bench short).bench) × (result.page ≡ told bench n short []) }
{
    let stepped = bench.step_short();
    let next = stepped.bench;
    let answer = stepped.answer;
    let head = heads::begun(n, answer, stepped.output);
    let came = answers::came(Event::ACKNOWLEDGE, 0, false, false, false, answer);
    let all = moves::at_controller(
        head.join(deeds::cut()).join(came),
        bench.controller,
        next.controller,
    );
    Told {
        bench: next,
        page: all.end(),
    }
}

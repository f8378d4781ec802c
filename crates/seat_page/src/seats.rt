// The page of a seat: what its registers would show, its queues, its flags and its tallies.
ghost use Rattle.std.specs.Prelude.{◌≡◌};
ghost use Rattle.page.specs.Pieces.{piece};
ghost use Rattle.page.specs.Pages.{joined_all};
ghost use Rattle.seat_page.specs.SeatPages.{seat_head, read_pieces, line_words, line_pieces, timeout_words, kept_words, flag_pieces, tally_pieces, channel_pieces, seat_page};

use crate::queues::{number, tell_queues};
use channel::Channel;
use page::{Page, Piece};
use receiver::Receiver;
use seat::{Five, Seat};

fn tell_reads(page: Page, c: Channel) -> Page
    ensures { result ≡ joined_all page (read_pieces c) }
{
    let lsr = status::lsr(c.settings.is_fifo(), c.receiver, c.transmitter);
    let iir = status::iir(c.settings, c.receiver, c.transmitter, c.modem.changes);
    let inputs = registers::inputs(c.settings.mcr, c.modem.levels);
    let msr = registers::modem_status(c.modem.changes, inputs);
    page.join(names::lsr(lsr))
        .join(names::iir(iir))
        .join(names::msr(msr))
}

fn line(c: Channel) -> Piece
    ensures { result ≡ piece (line_words c) }
{
    let none = Piece::empty();
    if c.line() {
        return none.text(b"line high");
    }
    none.text(b"line low")
}

fn tell_line(page: Page, c: Channel) -> Page
    ensures { result ≡ joined_all page (line_pieces c) }
{
    let loopback = names::word(Piece::empty(), c.settings.is_looped(), b"loopback");
    page.join(line(c)).join(loopback)
}

fn timeout(r: Receiver) -> Piece
    ensures { result ≡ piece (timeout_words r) }
{
    if r.timeout == 0 {
        return Piece::empty();
    }
    number(b"time-out count ", r.timeout as u32)
}

fn kept(r: Receiver) -> Piece
    ensures { result ≡ piece (kept_words r) }
{
    let none = Piece::empty();
    if r.kept == 0 {
        return none;
    }
    names::marks_named(none.text(b"kept marks"), r.kept)
}

fn tell_flags(page: Page, c: Channel) -> Page
    ensures { result ≡ joined_all page (flag_pieces c) }
{
    let flag = names::word(Piece::empty(), c.transmitter.flag, b"holding-empty flag");
    page.join(timeout(c.receiver))
        .join(flag)
        .join(kept(c.receiver))
}

fn tell_tallies(page: Page, t: Five) -> Page
    ensures { result ≡ joined_all page (tally_pieces t) }
{
    let page = page.join(number(b"arrived ", t.arrived));
    let page = page.join(number(b"read ", t.read));
    let page = page.join(number(b"lost ", t.lost));
    let page = page.join(number(b"dropped ", t.dropped));
    page.join(number(b"queued ", t.queued))
}

fn tell_channel(page: Page, c: Channel) -> Page
    ensures { result ≡ joined_all page (channel_pieces c) }
{
    tell_flags(tell_queues(tell_line(tell_reads(page, c), c), c), c)
}

fn head(n: u8) -> Piece
    ensures { result ≡ piece (seat_head n) }
{
    let name = Piece::empty().text(b"            ").text(b"seat ");
    name.decimal(n as u64).text(b": ")
}

// The page of seat `n`.
pub fn seat(held: Seat, n: u8) -> Page
    ensures { result ≡ seat_page held n }
{
    let page = tell_channel(Page::begin(head(n)), held.channel);
    tell_tallies(page, held.five()).end()
}

// The queues of a seat, and its shift register: a piece for each character, the oldest first.
ghost use Rattle.std.specs.Prelude.{◌≡◌, ◌++◌, map};
ghost use Rattle.text.specs.Line.{decimal};
ghost use Rattle.page.specs.Pieces.{piece};
ghost use Rattle.page.specs.Pages.{joined_all};
ghost use Rattle.seat_page.specs.SeatPages.{character_words, queue_pieces, queues_pieces, shift_words};

use channel::Channel;
use page::{Page, Piece};
use queue::{Character, Queue};
use transmitter::Transmitter;

pub(crate) fn number(words: &[u8], n: u32) -> Piece
    ensures { result ≡ piece (words.now ++ decimal n) }
{
    Piece::empty().text(words).decimal(n as u64)
}

fn character(marks: bool, ch: Character) -> Piece
    ensures { result ≡ piece (character_words marks ch) }
{
    let letter = Piece::empty().letter(ch.data);
    if marks {
        return names::marks(letter, ch.marks);
    }
    letter
}

fn tell_characters(page: Page, marks: bool, characters: &[Character]) -> Page
    ensures { result ≡ joined_all page (map (character_words marks) characters.now) }
{
    let mut told = page;
    for ch in characters {
        told = told.join(character(marks, *ch));
    }
    told
}

fn tell_queue(page: Page, words: &[u8], marks: bool, q: Queue) -> Page
    ensures { result ≡ joined_all page (queue_pieces words.now marks q) }
{
    let count = (q.count as usize).min(q.slots.len());
    let told = page.join(number(words, q.count as u32));
    tell_characters(told, marks, &q.slots[..count])
}

fn shift(t: Transmitter) -> Piece
    ensures { result ≡ piece (shift_words t) }
{
    let none = Piece::empty();
    if t.busy {
        return none.text(b"shift register ").letter(t.shift);
    }
    none
}

pub(crate) fn tell_queues(page: Page, c: Channel) -> Page
    ensures { result ≡ joined_all page (queues_pieces c) }
{
    let received = tell_queue(page, b"received ", true, c.receiver.queue);
    let waiting = tell_queue(received, b"to send ", false, c.transmitter.queue);
    waiting.join(shift(c.transmitter))
}

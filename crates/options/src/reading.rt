// The words, one after the other.
ghost use Rattle.std.specs.Prelude.{◌≡◌, ◌<◌};
ghost use Rattle.options.specs.Words.{placed, no_words, awaiting, stopped, once, place_of, saving, with_moment, with_when, dashed, read_by, further, option_read, words_after, whole};

use crate::moments::is_word;
use crate::{
    ASKED, Awaited, EACH, EXPLAIN, IMAGE, LESSON, Moment, SHOW, TALLIES, TIMELINE, Words, moments,
};

fn is_dashed(word: &[u8]) -> bool
    ensures { result ≡ dashed word.now }
{
    matches!(word, [b'-', ..])
}

// Words are counted from 1, and so 0 is the place of none.
fn placed(place: usize) -> Option<usize>
    ensures { result ≡ placed place }
{
    (place != 0).then_some(place)
}

impl Words {
    pub fn start() -> Words
        ensures { result ≡ no_words }
    {
        Words {
            awaited: Awaited::Word,
            moment: None,
            asked: [None; ASKED],
            wrong: None,
        }
    }

    fn awaiting(mut self, awaited: Awaited) -> Words
        ensures { result ≡ awaiting self awaited }
    {
        self.awaited = awaited;
        self
    }

    fn stopped(mut self, place: usize) -> Words
        ensures { result ≡ stopped self place }
    {
        self.awaited = Awaited::Nothing;
        self.wrong = placed(place);
        self
    }

    // Asked for at this place, unless it is already.
    fn once(mut self, what: usize, next: Awaited, place: usize) -> Words
        requires { what < 7 }
        ensures { result ≡ once what next self place }
    {
        if self.asked[what].is_some() {
            return self.stopped(place);
        }
        self.awaited = next;
        self.asked[what] = placed(place);
        self
    }

    fn saving(mut self, moment: Moment) -> Words
        ensures { result ≡ saving self moment }
    {
        self.awaited = Awaited::File;
        self.moment = Some(moment);
        self
    }

    fn with_moment(self, place: usize, moment: Option<Moment>) -> Words
        ensures { result ≡ with_moment self place moment }
    {
        match moment {
            Some(moment) => self.saving(moment),
            None => self.stopped(place),
        }
    }

    fn with_when(self, place: usize, word: &[u8]) -> Words
        ensures { result ≡ with_when self place word.now }
    {
        if is_word(word, b"each") {
            return self.once(EACH, Awaited::Word, place);
        }
        if is_word(word, b"end") {
            return self.awaiting(Awaited::Word);
        }
        self.stopped(place)
    }

    fn with_option(self, place: usize, word: &[u8]) -> Words
        ensures { result ≡ option_read self place word.now }
    {
        if is_word(word, b"--save-at") {
            return self.awaiting(Awaited::Moment);
        }
        if is_word(word, b"--restore") {
            return self.awaiting(Awaited::Image);
        }
        if is_word(word, b"--tallies") {
            return self.once(TALLIES, Awaited::Word, place);
        }
        if is_word(word, b"--explain") {
            return self.once(EXPLAIN, Awaited::Word, place);
        }
        self.with_further(place, word)
    }

    fn with_further(self, place: usize, word: &[u8]) -> Words
        ensures { result ≡ read_by further self place word.now }
    {
        if is_word(word, b"--show") {
            return self.once(SHOW, Awaited::When, place);
        }
        if is_word(word, b"--vcd") {
            return self.awaiting(Awaited::Timeline);
        }
        if is_word(word, b"--") {
            return self.awaiting(Awaited::Lesson);
        }
        if is_dashed(word) {
            return self.stopped(place);
        }
        self.once(LESSON, Awaited::Word, place)
    }

    // Behind one more word, which stands at this place.
    pub fn after(self, place: usize, word: &[u8]) -> Words
        ensures { result ≡ words_after self place word.now }
    {
        match self.awaited {
            Awaited::Word => self.with_option(place, word),
            Awaited::Moment => self.with_moment(place, moments::read(word)),
            Awaited::File => self.awaiting(Awaited::Word),
            Awaited::Image => self.once(IMAGE, Awaited::Word, place),
            Awaited::Lesson => self.once(LESSON, Awaited::Word, place),
            Awaited::When => self.with_when(place, word),
            Awaited::Timeline => self.once(TIMELINE, Awaited::Word, place),
            Awaited::Nothing => self,
        }
    }

    // Where a thing is asked for that may be once.
    pub fn place_of(self, what: usize) -> Option<usize>
        ensures { result ≡ place_of self what }
    {
        *self.asked.get(what)?
    }

    // Whether every word is understood and none is missing.
    pub fn are_whole(self) -> bool
        ensures { result ≡ whole self }
    {
        matches!(self.awaited, Awaited::Word)
    }
}

// The program's words, read one after the other: each option with the words that follow it, a lesson's name, and when a save is due.
#![tactic(auto)]

mod moments;
mod reading;
mod saves;

// When a save is due: behind so many records, or at the end.
#[derive(Clone, Copy)]
pub enum Moment {
    Behind(u64),
    End,
}

// Where a run stands: behind so many records, or at its end, with so many behind it.
#[derive(Clone, Copy)]
pub enum Now {
    Behind(u64),
    End(u64),
}

// Whether the next word is the file of a save that is due now, or of one that can no more be.
#[derive(Clone, Copy)]
pub enum Due {
    No,
    Save,
    Missed,
}

// What may be asked for once; of each the place of its word is kept.
pub const LESSON: usize = 0;

pub const IMAGE: usize = 1;

pub const TALLIES: usize = 2;

pub const EXPLAIN: usize = 3;

pub const SHOW: usize = 4;

// The state behind every record, and not behind the last alone.
pub const EACH: usize = 5;

pub const TIMELINE: usize = 6;

pub(crate) const ASKED: usize = 7;

// What the next word is.
#[derive(Clone, Copy)]
pub(crate) enum Awaited {
    // An option, or a lesson's name.
    Word,
    Moment,
    File,
    Image,
    // A lesson's name, whatever it begins with.
    Lesson,
    // Behind which records the state is shown.
    When,
    // The file for the timeline.
    Timeline,
    // A word is not understood, and nothing is read any more.
    Nothing,
}

// The words as far as they are read: what the next one is, and the moment of the save that was read last; where each thing is asked for that may be
// once; `wrong` is the place of a word that is not understood.
#[derive(Clone, Copy)]
pub struct Words {
    pub(crate) awaited: Awaited,
    pub(crate) moment: Option<Moment>,
    pub(crate) asked: [Option<usize>; ASKED],
    pub wrong: Option<usize>,
}

// Whether the next word is the file of a save, and when that save is due.
ghost use Rattle.std.specs.Prelude.{◌≡◌, ◌≤◌, ◌<◌};
ghost use Rattle.options.specs.Saves.{due_behind, due_end, due_at, save_next, due_of, stop_behind, stop_at, stop_of};

use crate::{Awaited, Due, Moment, Now, Words};

fn due_behind(moment: Moment, n: u64) -> Due
    ensures { result ≡ due_behind moment n }
{
    match moment {
        Moment::Behind(count) if count == n => Due::Save,
        _ => Due::No,
    }
}

fn due_end(moment: Moment, n: u64) -> Due
    ensures { result ≡ due_end moment n }
{
    match moment {
        Moment::Behind(count) if n < count => Due::Missed,
        Moment::Behind(_) => Due::No,
        Moment::End => Due::Save,
    }
}

fn due_at(moment: Moment, now: Now) -> Due
    ensures { result ≡ due_at moment now }
{
    match now {
        Now::Behind(n) => due_behind(moment, n),
        Now::End(n) => due_end(moment, n),
    }
}

fn stop_behind(count: u64, from: u64, most: u64) -> u64
    ensures { (result ≡ stop_behind count from most) × (result ≤ most) × (from < most → from < result) }
{
    if from < count && count < most {
        count
    } else {
        most
    }
}

fn stop_at(moment: Moment, from: u64, most: u64) -> u64
    ensures { (result ≡ stop_at moment from most) × (result ≤ most) × (from < most → from < result) }
{
    match moment {
        Moment::Behind(count) => stop_behind(count, from, most),
        Moment::End => most,
    }
}

impl Words {
    // The moment of a save whose file is the next word.
    fn save_next(self) -> Option<Moment>
        ensures { result ≡ save_next self }
    {
        match self.awaited {
            Awaited::File => self.moment,
            _ => None,
        }
    }

    pub fn due(self, now: Now) -> Due
        ensures { result ≡ due_of self now }
    {
        match self.save_next() {
            Some(moment) => due_at(moment, now),
            None => Due::No,
        }
    }

    // A run that stands behind `from` records and was to stop behind `most` of them stops sooner where this save is due.
    pub fn stop(self, from: u64, most: u64) -> u64
        ensures { (result ≡ stop_of self from most) × (result ≤ most) × (from < most → from < result) }
    {
        match self.save_next() {
            Some(moment) => stop_at(moment, from, most),
            None => most,
        }
    }
}

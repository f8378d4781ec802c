// A trial of saved benches: a stream that stops after every hundredth event.
use crate::buffers::{self, Buffer};
use crate::digest::Digest;
use crate::lent::Lent;
use crate::picks::Picker;
use crate::runs::{ASKED_LINES, Run};
use bench::Bench;

const BETWEEN_STOPS: u64 = 100;

// The stream with its bench, the other bench, and the picker.
#[derive(Clone, Copy)]
pub(crate) struct SavedRun {
    pub run: Run,
    pub other: Bench,
    pub picker: Picker,
}

impl SavedRun {
    // "ahead(bench, n) takes a copy of the stream's state": the bench behind so many events. "The stream's own state stays."
    pub(crate) fn ahead(&mut self, rows: &streams::Rows, bench: Bench, count: u64) -> Bench {
        let mut copy = self.run;
        copy.bench = bench;
        copy.on(rows, count, 0);
        self.run.digest = copy.digest;
        copy.bench
    }

    // "It is restored at place p, with length 760, over a copy of other; add(the number), which is 0. Then keep(that copy, p)."
    fn read_older(&mut self, old: &Buffer) {
        let read = old.restore(self.other);
        self.run.digest.add(read.answer.refusal() as u32);
        Buffer::keep(&mut self.run.digest, read.bench, old.at);
    }

    // "The picks are made in exactly this order": s, q, p, n, and those of the damages.
    fn stop(&mut self, rows: &streams::Rows, odd: bool) {
        let s = self.picker.pick(3);
        let q = self.picker.spot();
        let p = self.picker.pick(56);
        let n = 1 + self.picker.pick(63);
        buffers::save(&mut self.run.digest, self.run.bench, Lent::no_room(s, q, p));
        let image = Buffer::keep(&mut self.run.digest, self.run.bench, p);
        let gone_on = self.ahead(rows, self.run.bench, n as u64);
        // "If k is odd, bench becomes other."
        let over = if odd { self.other } else { gone_on };
        let back = image.restore(over);
        self.run.bench = back.bench;
        self.run.digest.add(back.answer.refusal() as u32);
        let old = image.older();
        self.read_older(&old);
        self.other = self.run.bench;
        self.damage_all(rows, &image, &old);
    }
}

pub(crate) fn digests(seed: u32, count: u64, set: u8, bench: Bench) -> [Digest; 3] {
    let rows = streams::script_rows();
    let mut saved = SavedRun {
        run: Run::start(seed, set, bench),
        other: bench,
        picker: Picker::start(seed),
    };
    for k in 0..count / BETWEEN_STOPS {
        saved.run.on(&rows, BETWEEN_STOPS, ASKED_LINES);
        saved.stop(&rows, k % 2 == 1);
    }
    saved.run.on(&rows, count % BETWEEN_STOPS, ASKED_LINES);
    saved.run.digests()
}

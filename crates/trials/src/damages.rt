// A stop's image, damaged and restored time and again.
use crate::buffers::Buffer;
use crate::images::SavedRun;
use crate::lent::Lent;
use crate::wounds;

const DAMAGES: u8 = 128;

const LOOKED_AT: u8 = 8;

const LATER: u64 = 100;

impl SavedRun {
    // "If the number is 0, or i % 8 is 0": whatever was restored is written back, and now and then what a refusal left. "If the number is 0": later events.
    fn damage(&mut self, rows: &streams::Rows, mut copy: Buffer, i: u8) {
        wounds::make(&mut copy, &mut self.picker);
        let h = self.picker.pick(23);
        let m = self.picker.spot();
        let read = Lent::of_damage(h, m, copy.at).restore(self.other, &copy.bytes);
        let number = read.answer.refusal();
        self.other = read.bench;
        self.run.digest.add(number as u32);
        if number == 0 || i % LOOKED_AT == 0 {
            Buffer::keep(&mut self.run.digest, self.other, copy.at);
        }
        if number == 0 {
            self.other = self.ahead(rows, self.other, LATER);
        }
    }

    // "128 damages, numbered i = 0 to 127." "If i % 4 is 3, take a copy of the buffer with this stop's version 1 image; else of that with its version 2 image."
    pub(crate) fn damage_all(&mut self, rows: &streams::Rows, image: &Buffer, old: &Buffer) {
        for i in 0..DAMAGES {
            let copy = if i % 4 == 3 { *old } else { *image };
            self.damage(rows, copy, i);
        }
    }
}

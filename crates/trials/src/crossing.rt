// The stop of a pair: each bench is read from the other's image, with the one seat's record from the shelf.
use crate::buffers::{Buffer, SEATS};
use crate::pairs::Pair;

const LATCHES: u16 = 15;

const SPOILT: u8 = 255;

impl Buffer {
    // The first byte of a record "becomes 255", which no IER is.
    fn spoil(&mut self, n: u8) {
        self.put(self.record_at(n), &[SPOILT]);
    }
}

impl Pair {
    // "Byte 15 of the image (the latches) becomes 0 and the 86 bytes of seat n's record become the shelf." "If v is 0, each of the new images becomes
    // version 1."
    fn made_of(&self, mut image: Buffer, old: bool) -> Buffer {
        image.put(LATCHES, &[0]);
        image.put(image.record_at(self.seat), &self.shelf);
        if old { image.older() } else { image }
    }

    // "If w is 0, byte 0 of the new left image becomes 0" and "byte 16 + r * ((n + 1) % 8) of the new right image becomes 255"; "if w is 1, byte 16 + r * n of
    // each becomes 255."
    fn spoil(&self, to_left: &mut Buffer, to_right: &mut Buffer, w: u8) {
        match w {
            0 => {
                to_left.put(0, &[0]);
                to_right.spoil((self.seat % SEATS + 1) % SEATS);
            }
            1 => {
                to_left.spoil(self.seat);
                to_right.spoil(self.seat);
            }
            _ => {}
        }
    }

    // "The picks are made first: v = pick(2), w = pick(4), p = pick(57)."
    pub(crate) fn stop(&mut self) {
        let old = self.picker.pick(1) == 0;
        let w = self.picker.pick(3);
        let p = self.picker.pick(56);
        let of_left = self.left.save(&mut self.digest, p);
        let of_right = self.right.save(&mut self.digest, p);
        let mut to_left = self.made_of(of_right, old);
        let mut to_right = self.made_of(of_left, old);
        self.spoil(&mut to_left, &mut to_right, w);
        self.left.restore(&mut self.digest, &to_left);
        self.right.restore(&mut self.digest, &to_right);
        self.shelf = of_left.record(self.seat);
    }
}

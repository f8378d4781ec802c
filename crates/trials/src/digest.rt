// What is seen of benches, reduced to a number.
use base::Answer;
use controller::Controller;
use seat::Five;

// "The digest starts at 0."
#[derive(Clone, Copy)]
pub(crate) struct Digest(u32);

impl Digest {
    pub(crate) const START: Digest = Digest(0);

    pub(crate) fn number(self) -> u32 {
        self.0
    }

    pub(crate) fn add(&mut self, v: u32) {
        self.0 = streams::add(self.0, v);
    }

    pub(crate) fn add_outcome(&mut self, answer: Answer, output: bool) {
        self.add(streams::outcome_mark(answer, output));
    }

    // "For each line 0 to 8 in order, its place in turn", as far as lines are asked for.
    pub(crate) fn add_places(&mut self, controller: Controller, lines: u8) {
        for line in 0..lines {
            self.add(streams::place_mark(controller.place(line)));
        }
    }

    // "add(arrived), add(read), add(lost), add(dropped), add(queued)."
    pub(crate) fn add_five(&mut self, five: Five) {
        self.add(five.arrived);
        self.add(five.read);
        self.add(five.lost);
        self.add(five.dropped);
        self.add(five.queued);
    }

    // "Takes its bytes by fours": those of a buffer whose length is a multiple of four.
    pub(crate) fn add_buffer(&mut self, buffer: &[u8]) {
        for fours in buffer.chunks_exact(4) {
            if let [a, b, c, d] = *fours {
                self.add(u32::from_le_bytes([a, b, c, d]));
            }
        }
    }
}

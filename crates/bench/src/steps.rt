// One record on the bench.
ghost use Rattle.std.specs.Prelude.{◌≡◌};
ghost use Rattle.controller.specs.Steps.{placed};
ghost use Rattle.controller.specs.Turns.{output_of};
ghost use Rattle.records.specs.Events.{record_of, short};
ghost use Rattle.records.specs.declared.Event.TheVariants.{MasterReset};
ghost use Rattle.bench.specs.Steps.{shown, met, outcome};

use crate::{Bench, Outcome, seats};
use base::{Answer, Refusal, Whole};
use records::Event;

impl Bench {
    fn show(self, answer: Answer) -> Outcome
        ensures { result ≡ shown self answer }
    {
        let output = self.controller.output();
        Outcome {
            bench: self,
            answer,
            output,
        }
    }

    // The one event that touches more than a seat and the controller.
    pub fn reset(mut self) -> Outcome
        ensures { result ≡ met self MasterReset }
    {
        self.seats = seats::reset_all(self.seats);
        self.controller = self.controller.settle(0);
        self.show(Answer::Done)
    }

    // The seat is copied out at its chair, and stored back there with the controller.
    pub fn step(mut self, whole: Whole) -> Outcome
        ensures { result ≡ outcome self (record_of whole) }
    {
        if whole.kind == Event::MASTER_RESET {
            return self.reset();
        }
        let at = seats::chair(whole.seat);
        let touched = records::step_parts(self.seats[at], self.controller, whole);
        self.seats[at] = touched.seat;
        self.controller = touched.controller;
        self.show(touched.answer)
    }

    // A record of one to three bytes at the end of input.
    pub fn step_short(self) -> Outcome
        ensures { result ≡ outcome self short }
    {
        self.show(Answer::Refused(Refusal::Short.number()))
    }

    pub fn place(self, line: u8) -> Answer
        ensures { result ≡ placed self.controller line }
    {
        self.controller.place(line)
    }

    pub fn output(self) -> bool
        ensures { result ≡ output_of self.controller }
    {
        self.controller.output()
    }
}

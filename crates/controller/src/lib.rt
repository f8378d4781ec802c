// One 8259A. It knows the levels of eight lines, and no seats. A set of lines is a byte: line n is its bit n.
#![tactic(auto)]

use base::{Answer, Refusal};

mod refusals;
mod turns;
mod words;

ghost use Rattle.std.specs.Prelude.{◌≡◌};
ghost use Rattle.base.specs.Refusals.{number_of};
ghost use Rattle.controller.specs.State.{power_up};
ghost use Rattle.controller.specs.Signals.{read, write, acknowledge};
ghost use Rattle.controller.specs.Turns.{settled, output_of};
ghost use Rattle.controller.specs.Steps.{step, refused, placed};

// The lines as they were last shown, and the edge latches.
#[repr(C)]
#[derive(Clone, Copy)]
pub struct Lines {
    pub levels: u8,
    pub latches: u8,
}

// What the initialisation words settle.
#[repr(C)]
#[derive(Clone, Copy)]
pub struct Setup {
    pub stage: u8,
    pub level: bool,
    pub base: u8,
    pub automatic: bool,
}

// What the operation words and the grants move. `first` is the first-ranked line; `selected` has port 0 read in-service.
#[repr(C)]
#[derive(Clone, Copy)]
pub struct Operation {
    pub mask: u8,
    pub service: u8,
    pub first: u8,
    pub rotation: bool,
    pub special: bool,
    pub selected: bool,
}

#[repr(C)]
#[derive(Clone, Copy)]
pub struct Controller {
    pub lines: Lines,
    pub setup: Setup,
    pub operation: Operation,
}

// The controller after a signal, and what the signal was answered with.
#[derive(Clone, Copy)]
pub struct Signalled {
    pub controller: Controller,
    pub answer: Answer,
}

impl Setup {
    // The stages of the initialisation.
    pub const UNBEGUN: u8 = 0;

    pub const AWAITS_ICW2: u8 = 1;

    pub const AWAITS_ICW4: u8 = 2;

    pub const READY: u8 = 3;

    // The bits of the initialisation words; bit 4 of a byte at port 0 makes it ICW1.
    pub const ICW1: u8 = 4;

    pub const ICW1_LEVEL: u8 = 3;

    pub const ICW1_SINGLE: u8 = 1;

    pub const ICW1_ICW4: u8 = 0;

    pub const ICW4_AUTOMATIC: u8 = 1;

    pub const ICW4_8086: u8 = 0;
}

impl Operation {
    // The commands of OCW2, bits 7-5.
    pub const OCW2_END: u8 = 0b001;

    pub const OCW2_END_ROTATING: u8 = 0b101;

    pub const OCW2_END_LINE: u8 = 0b011;

    pub const OCW2_END_LINE_ROTATING: u8 = 0b111;

    pub const OCW2_MAKE_LAST: u8 = 0b110;

    pub const OCW2_ROTATION_ON: u8 = 0b100;

    pub const OCW2_ROTATION_OFF: u8 = 0b000;

    // The bits of OCW3; of a byte at port 0 that is no ICW1, bit 3 makes it OCW3. It sets the special mask, and selects, only if it says so.
    pub const OCW3: u8 = 3;

    pub const OCW3_POLL: u8 = 2;

    pub const OCW3_SETS_SPECIAL: u8 = 6;

    pub const OCW3_SPECIAL: u8 = 5;

    pub const OCW3_SELECTS: u8 = 1;

    pub const OCW3_SERVICE: u8 = 0;

    // As it is at power-up and after ICW1.
    pub(crate) const EMPTY: Operation = Operation {
        mask: 0,
        service: 0,
        first: 0,
        rotation: false,
        special: false,
        selected: false,
    };
}

impl Controller {
    pub const PORT_COMMAND: u8 = 0;

    pub const PORT_MASK: u8 = 1;

    // The line that the vector of a spurious acknowledge names.
    pub const SPURIOUS_LINE: u8 = 7;

    pub fn power_up() -> Controller
        ensures { result ≡ power_up }
    {
        Controller {
            lines: Lines {
                levels: 0,
                latches: 0,
            },
            setup: Setup {
                stage: Setup::UNBEGUN,
                level: false,
                base: 0,
                automatic: false,
            },
            operation: Operation::EMPTY,
        }
    }

    // The lines are at these levels from now on.
    #[tactic(auto, unfolding(crate::specs::Turns::settled))]
    pub fn settle(mut self, levels: u8) -> Controller
        ensures { result ≡ settled self levels }
    {
        let rises = rank::without(levels, self.lines.levels);
        let latches = levels & (self.lines.latches | rises);
        self.lines.latches = latches;
        self.lines.levels = levels;
        self
    }

    // Asked after every event: mostly nobody asks, and no search is made. The search takes bytes, not the controller, which need not be stored for it.
    pub fn output(self) -> bool
        ensures { result ≡ output_of self }
    {
        let o = self.operation;
        let asks = self.asking();
        if asks == 0 {
            return false;
        }
        let place = rank::first_above(o.first, asks, o.hindering());
        (self.setup.stage == Setup::READY) & place.is_some()
    }

    // The place in turn of a line.
    #[tactic(auto, using(base::specs::PickLaws::tests, crate::specs::RefusalLaws::place_by_ground), unfolding(crate::specs::Steps::placed, base::specs::Refusals::number_of))]
    pub fn place(self, line: u8) -> Answer
        ensures { result ≡ placed self line }
    {
        if rank::LINES <= line {
            return Answer::Refused(Refusal::SeatAbove.number());
        }
        Answer::Place(rank::place(self.operation.first, line))
    }
}

// The signals, each refused or done.
#[tactic(auto, using(base::specs::PickLaws::tests, base::proofs::GivenLaws::some_number), unfolding(crate::specs::Steps::step, base::specs::Refusals::number_given))]
impl Controller {
    pub fn read(self, port: u8) -> Answer
        ensures { result ≡ (step self (read port)).answer }
    {
        match self.setup.refuse_read(port) {
            None => Answer::Byte(self.shown(port)),
            Some(refusal) => Answer::Refused(refusal.number()),
        }
    }

    pub fn write(self, port: u8, byte: u8) -> Signalled
        ensures { result ≡ step self (write port byte) }
    {
        match self.setup.refuse_write(port, byte) {
            None => Signalled {
                controller: self.written(port, byte),
                answer: Answer::Done,
            },
            Some(refusal) => self.refuse(refusal),
        }
    }

    pub fn acknowledge(self) -> Signalled
        ensures { result ≡ step self acknowledge }
    {
        match self.setup.refuse_acknowledge() {
            None => self.acknowledged(),
            Some(refusal) => self.refuse(refusal),
        }
    }

    // "The answer of every refusal is FFF and nothing changes."
    fn refuse(self, refusal: Refusal) -> Signalled
        ensures { result ≡ refused self (number_of refusal) }
    {
        Signalled {
            controller: self,
            answer: Answer::Refused(refusal.number()),
        }
    }
}

// What the initialisation and operation words do, and what the ports show.
ghost use Rattle.std.specs.Prelude.{◌≡◌};
ghost use Rattle.controller.specs.Words.{icw1, ended, made_last, served, ocw2, ocw3, written1, written, shown};

use crate::{Controller, Lines, Operation, Setup};

impl Operation {
    // A command of OCW2 counts by bit 5, and there are eight.
    const OCW2_UNIT: u8 = 0b10_0000;

    const OCW2_COMMANDS: u8 = 8;

    #[tactic(auto, unfolding(crate::specs::Words::ended))]
    fn ended(mut self, n: u8) -> Operation
        ensures { result ≡ ended self n }
    {
        self.service = rank::without(self.service, rank::only(n));
        self
    }

    #[tactic(auto, unfolding(crate::specs::Words::made_last))]
    fn made_last(mut self, n: u8) -> Operation
        ensures { result ≡ made_last self n }
    {
        self.first = rank::next(n);
        self
    }

    // The line that a plain end takes.
    fn served(self) -> Option<u8>
        ensures { result ≡ served self }
    {
        rank::first_place(self.first, self.hindering()).map(|k| rank::line_at(self.first, k))
    }

    #[tactic(auto, using(base::specs::PickLaws::tests), unfolding(crate::specs::Words::ocw2, crate::specs::Words::command))]
    fn ocw2(self, byte: u8) -> Operation
        ensures { result ≡ ocw2 self byte }
    {
        let n = byte % rank::LINES;
        match byte / Operation::OCW2_UNIT % Operation::OCW2_COMMANDS {
            Operation::OCW2_END => self.served().map_or(self, |n| self.ended(n)),
            Operation::OCW2_END_ROTATING => self
                .served()
                .map_or(self, |n| self.ended(n).made_last(n)),
            Operation::OCW2_END_LINE => self.ended(n),
            Operation::OCW2_END_LINE_ROTATING => self.ended(n).made_last(n),
            Operation::OCW2_MAKE_LAST => self.made_last(n),
            Operation::OCW2_ROTATION_ON => Operation {
                rotation: true,
                ..self
            },
            Operation::OCW2_ROTATION_OFF => Operation {
                rotation: false,
                ..self
            },
            _ => self,
        }
    }

    #[tactic(auto, unfolding(crate::specs::Words::ocw3))]
    fn ocw3(mut self, byte: u8) -> Operation
        ensures { result ≡ ocw3 self byte }
    {
        self.special = base::pick_flag(
            base::bit(Operation::OCW3_SETS_SPECIAL, byte),
            base::bit(Operation::OCW3_SPECIAL, byte),
            self.special,
        );
        self.selected = base::pick_flag(
            base::bit(Operation::OCW3_SELECTS, byte),
            base::bit(Operation::OCW3_SERVICE, byte),
            self.selected,
        );
        self
    }
}

impl Controller {
    #[tactic(auto, unfolding(crate::specs::Words::icw1))]
    fn icw1(self, byte: u8) -> Controller
        ensures { result ≡ icw1 self byte }
    {
        Controller {
            lines: Lines {
                latches: 0,
                ..self.lines
            },
            setup: Setup {
                stage: Setup::AWAITS_ICW2,
                level: base::bit(Setup::ICW1_LEVEL, byte),
                automatic: false,
                ..self.setup
            },
            operation: Operation::EMPTY,
        }
    }

    #[tactic(auto, using(base::specs::PickLaws::tests), unfolding(crate::specs::Words::written1, crate::specs::Words::icw2, crate::specs::Words::icw4))]
    fn written1(mut self, byte: u8) -> Controller
        ensures { result ≡ written1 self byte }
    {
        match self.setup.stage {
            Setup::AWAITS_ICW2 => {
                self.setup.base = byte / rank::LINES * rank::LINES;
                self.setup.stage = Setup::AWAITS_ICW4;
            }
            Setup::AWAITS_ICW4 => {
                self.setup.automatic = base::bit(Setup::ICW4_AUTOMATIC, byte);
                self.setup.stage = Setup::READY;
            }
            _ => self.operation.mask = byte,
        }
        self
    }

    #[tactic(auto, using(base::specs::PickLaws::tests), unfolding(crate::specs::Words::written, crate::specs::Words::written0))]
    pub(crate) fn written(mut self, port: u8, byte: u8) -> Controller
        ensures { result ≡ written self port byte }
    {
        if port != Controller::PORT_COMMAND {
            return self.written1(byte);
        }
        if base::bit(Setup::ICW1, byte) {
            return self.icw1(byte);
        }
        let o = self.operation;
        self.operation = if base::bit(Operation::OCW3, byte) {
            o.ocw3(byte)
        } else {
            o.ocw2(byte)
        };
        self
    }

    #[tactic(auto, using(base::specs::PickLaws::tests), unfolding(crate::specs::Words::shown))]
    pub(crate) fn shown(self, port: u8) -> u8
        ensures { result ≡ shown self port }
    {
        if port == Controller::PORT_MASK {
            return self.operation.mask;
        }
        base::pick_byte(
            self.operation.selected,
            self.operation.service,
            self.requests(),
        )
    }
}

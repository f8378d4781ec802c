// What a controller refuses, signal by signal, by its setup: the first in document 01's order whose condition holds.
ghost use Rattle.std.specs.Prelude.{◌≡◌};
ghost use Rattle.base.specs.Refusals.{number_given};
ghost use Rattle.controller.specs.Signals.{read, write, acknowledge};
ghost use Rattle.controller.specs.Refusals.{not_ready, not_served, refusal};

use crate::{Controller, Operation, Setup};
use base::Refusal;

impl Setup {
    fn not_ready(self, port: u8, byte: u8) -> bool
        ensures { result ≡ not_ready self (write port byte) }
    {
        let ready = self.stage == Setup::READY;
        let begun = (self.stage == Setup::AWAITS_ICW2) | (self.stage == Setup::AWAITS_ICW4) | ready;
        let icw1 = base::bit(Setup::ICW1, byte);
        !ready
            & ((port == Controller::PORT_COMMAND) & !icw1
                | (port == Controller::PORT_MASK) & !begun)
    }

    fn not_served(self, port: u8, byte: u8) -> bool
        ensures { result ≡ not_served self (write port byte) }
    {
        if port != Controller::PORT_COMMAND {
            let icw4 = (port == Controller::PORT_MASK) & (self.stage == Setup::AWAITS_ICW4);
            return icw4 & !base::bit(Setup::ICW4_8086, byte);
        }
        if base::bit(Setup::ICW1, byte) {
            return !(base::bit(Setup::ICW1_ICW4, byte) & base::bit(Setup::ICW1_SINGLE, byte));
        }
        base::bit(Operation::OCW3, byte) & base::bit(Operation::OCW3_POLL, byte)
    }
}

#[tactic(auto, using(base::specs::PickLaws::tests, crate::specs::RefusalLaws::refusal_by_grounds), unfolding(base::specs::Refusals::number_given, base::specs::Refusals::number_of))]
impl Setup {
    pub(crate) fn refuse_read(self, port: u8) -> Option<Refusal>
        ensures { number_given result ≡ refusal self (read port) }
    {
        if Controller::PORT_MASK < port {
            return Some(Refusal::NumberAbove);
        }
        if self.stage != Setup::READY {
            return Some(Refusal::NotReady);
        }
        None
    }

    pub(crate) fn refuse_acknowledge(self) -> Option<Refusal>
        ensures { number_given result ≡ refusal self acknowledge }
    {
        if self.stage != Setup::READY {
            return Some(Refusal::NotReady);
        }
        None
    }

    pub(crate) fn refuse_write(self, port: u8, byte: u8) -> Option<Refusal>
        ensures { number_given result ≡ refusal self (write port byte) }
    {
        if Controller::PORT_MASK < port {
            return Some(Refusal::NumberAbove);
        }
        if self.not_ready(port, byte) {
            return Some(Refusal::NotReady);
        }
        if self.not_served(port, byte) {
            return Some(Refusal::NotServed);
        }
        None
    }
}

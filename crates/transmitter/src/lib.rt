// The send side of a channel: the transmit queue, the shift register, and the holding-empty flag.
// An empty shift register holds the byte 0, so that equal sides have equal fields.
#![tactic(auto)]

ghost use Rattle.std.specs.Prelude.{◌≡◌};
ghost use Rattle.transmitter.specs.Transmitter.{still, none_waiting, all_sent, flag_set_if, written, emptied, next, shifted, iir_seen, ier_sent, fcr_sent};

use queue::{Character, Queue};

#[repr(C)]
#[derive(Clone, Copy)]
pub struct Transmitter {
    pub queue: Queue,
    pub busy: bool,
    pub shift: u8,
    pub flag: bool,
}

impl Transmitter {
    pub fn power_up() -> Transmitter
        ensures { result ≡ still }
    {
        Transmitter {
            queue: Queue::empty(),
            busy: false,
            shift: 0,
            flag: false,
        }
    }

    #[tactic(auto, unfolding(crate::specs::Transmitter::none_waiting))]
    pub fn is_empty(self) -> bool
        ensures { result ≡ none_waiting self }
    {
        self.queue.count == 0
    }

    #[tactic(auto, unfolding(crate::specs::Transmitter::all_sent))]
    pub fn is_idle(self) -> bool
        ensures { result ≡ all_sent self }
    {
        self.is_empty() & !self.busy
    }

    #[tactic(auto, unfolding(crate::specs::Transmitter::flag_set_if, base::specs::Pick::pick))]
    fn set_flag_if(mut self, test: bool) -> Transmitter
        ensures { result ≡ flag_set_if test self }
    {
        self.flag |= test;
        self
    }

    // The IIR is read, and named the flag or did not.
    #[tactic(auto, unfolding(base::specs::Pick::pick))]
    pub fn iir_read(mut self, named: bool) -> Transmitter
        ensures { result ≡ iir_seen named self }
    {
        if named {
            self.flag = false;
        }
        self
    }

    #[tactic(auto, unfolding(crate::specs::Transmitter::written))]
    pub fn write(mut self, fifo: bool, byte: u8) -> Transmitter
        ensures { result ≡ written fifo self byte }
    {
        let put = self.queue.accept(
            fifo,
            Character {
                data: byte,
                marks: 0,
            },
        );
        self.queue = put.queue;
        self.flag = false;
        self
    }

    #[tactic(auto, unfolding(crate::specs::Transmitter::emptied))]
    fn clear(mut self) -> Transmitter
        ensures { result ≡ emptied self }
    {
        let none = self.is_empty();
        self.queue = Queue::empty();
        self.set_flag_if(!none)
    }

    // The FCR is written, and empties the queue or does not.
    #[tactic(auto, unfolding(base::specs::Pick::pick))]
    pub fn fcr_written(self, asked: bool) -> Transmitter
        ensures { result ≡ fcr_sent asked self }
    {
        if asked { self.clear() } else { self }
    }

    #[tactic(auto, unfolding(crate::specs::Transmitter::next, crate::specs::Transmitter::none_waiting, base::specs::Pick::pick))]
    fn next(mut self) -> Transmitter
        ensures { result ≡ next self }
    {
        if self.is_empty() {
            return self;
        }
        let taken = self.queue.take();
        self.queue = taken.queue;
        self.busy = true;
        self.shift = taken.character.data;
        let last = self.is_empty();
        self.set_flag_if(last)
    }

    #[tactic(auto, unfolding(crate::specs::Transmitter::shifted))]
    pub fn shift(mut self) -> Transmitter
        ensures { result ≡ shifted self }
    {
        self.busy = false;
        self.shift = 0;
        self.next()
    }

    // The IER is written, and turns its bit 1 on or does not.
    #[tactic(auto, unfolding(crate::specs::Transmitter::enabled, crate::specs::Transmitter::flag_set_if, base::specs::Pick::pick))]
    pub fn ier_written(self, rise: bool) -> Transmitter
        ensures { result ≡ ier_sent rise self }
    {
        self.set_flag_if(rise & self.is_empty())
    }
}

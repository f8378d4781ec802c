// The receive side of a channel: the queue, overrun, kept marks, the time-out count and the last byte read.
// `fifo` is the mode in every call; the channel has it in its FCR.
#![tactic(auto)]

ghost use Rattle.std.specs.Prelude.{◌≡◌};
ghost use Rattle.receiver.specs.Receiver.{quiet, none_queued, received, got, shown_marks, some_marked, troubled, lsr_seen, waited, cleared, after_mode_change, fcr_heard, restarted, data_stands, timeout_stands};

use base::Figures;
use queue::{Character, Queue};

#[repr(C)]
#[derive(Clone, Copy)]
pub struct Receiver {
    pub queue: Queue,
    pub overrun: bool,
    pub kept: u8,
    pub timeout: u8,
    pub last: u8,
}

#[derive(Clone, Copy)]
pub struct Got {
    pub receiver: Receiver,
    pub byte: u8,
    pub figures: Figures,
}

impl Receiver {
    // A time-out stands once this many character times have passed over a waiting character.
    pub const TIMEOUT: u8 = 4;

    pub fn power_up() -> Receiver
        ensures { result ≡ quiet }
    {
        Receiver {
            queue: Queue::empty(),
            overrun: false,
            kept: 0,
            timeout: 0,
            last: 0,
        }
    }

    #[tactic(auto, unfolding(crate::specs::Receiver::none_queued))]
    pub fn is_empty(self) -> bool
        ensures { result ≡ none_queued self }
    {
        self.queue.count == 0
    }

    #[tactic(auto, unfolding(crate::specs::Receiver::received))]
    pub fn receive(mut self, fifo: bool, ch: Character) -> Receiver
        ensures { result ≡ received fifo self ch }
    {
        let stands = self.timed_out();
        let put = self.queue.accept(fifo, ch);
        self.queue = put.queue;
        self.overrun = self.overrun | put.full;
        self.kept = base::pick_byte(fifo, self.kept, self.kept | ch.marks);
        self.timeout = base::pick_byte(stands, self.timeout, 0);
        self
    }

    #[tactic(auto, unfolding(crate::specs::Receiver::got, crate::specs::Receiver::none_queued, base::specs::Pick::pick))]
    pub fn get(mut self) -> Got
        ensures { result ≡ got self }
    {
        if self.is_empty() {
            return Got {
                receiver: self,
                byte: self.last,
                figures: Figures {
                    marks: 0,
                    behind: 0,
                },
            };
        }
        let taken = self.queue.take();
        self.queue = taken.queue;
        self.timeout = 0;
        self.last = taken.character.data;
        Got {
            receiver: self,
            byte: taken.character.data,
            figures: Figures {
                marks: taken.character.marks,
                behind: taken.queue.count,
            },
        }
    }

    #[tactic(auto, unfolding(crate::specs::Receiver::shown_marks, base::specs::Pick::pick))]
    pub fn marks(self, fifo: bool) -> u8
        ensures { result ≡ shown_marks fifo self }
    {
        if fifo {
            self.queue.first().marks
        } else {
            self.kept
        }
    }

    #[tactic(auto, unfolding(crate::specs::Receiver::troubled))]
    pub fn trouble(self, fifo: bool) -> bool
        ensures { result ≡ troubled fifo self }
    {
        let marks = self.marks(fifo);
        self.overrun
            | base::bit(base::MARK_PARITY, marks)
            | base::bit(base::MARK_FRAMING, marks)
            | base::bit(base::MARK_BREAK, marks)
    }

    #[tactic(auto, unfolding(crate::specs::Receiver::some_marked))]
    pub fn any_marked(self, fifo: bool) -> bool
        ensures { result ≡ some_marked fifo self }
    {
        fifo && self.queue.any_marked()
    }

    // The LSR is read: what it showed is cleared.
    #[tactic(auto, unfolding(crate::specs::Receiver::lsr_seen, base::specs::Pick::pick))]
    pub fn lsr_read(mut self, fifo: bool) -> Receiver
        ensures { result ≡ lsr_seen fifo self }
    {
        self.overrun = false;
        if fifo {
            self.queue = self.queue.unmark();
        } else {
            self.kept = 0;
        }
        self
    }

    #[tactic(auto, unfolding(crate::specs::Receiver::waited, base::specs::Pick::pick))]
    pub fn wait(mut self, fifo: bool) -> Receiver
        ensures { result ≡ waited fifo self }
    {
        let none = self.is_empty();
        let counts = fifo & !none & (self.timeout < Receiver::TIMEOUT);
        if counts {
            self.timeout += 1;
        }
        self
    }

    #[tactic(auto, unfolding(crate::specs::Receiver::cleared))]
    fn clear(mut self) -> Receiver
        ensures { result ≡ cleared self }
    {
        self.queue = Queue::empty();
        self.timeout = 0;
        self
    }

    #[tactic(auto, unfolding(crate::specs::Receiver::cleared, crate::specs::Receiver::after_mode_change))]
    fn change_mode(self) -> Receiver
        ensures { result ≡ after_mode_change self }
    {
        let mut next = self.clear();
        next.kept = 0;
        next
    }

    // The FCR is written: its bit 0 changed, or it asks for an empty queue.
    #[tactic(auto, unfolding(base::specs::Pick::pick))]
    pub fn fcr_written(self, changed: bool, asked: bool) -> Receiver
        ensures { result ≡ fcr_heard changed asked self }
    {
        if changed {
            self.change_mode()
        } else if asked {
            self.clear()
        } else {
            self
        }
    }

    #[tactic(auto, unfolding(crate::specs::Receiver::restarted, crate::specs::Receiver::after_mode_change))]
    pub fn restart(self) -> Receiver
        ensures { result ≡ restarted self }
    {
        let mut next = self.change_mode();
        next.overrun = false;
        next
    }

    #[tactic(auto, unfolding(crate::specs::Receiver::data_stands, base::specs::Pick::pick))]
    pub fn data(self, fifo: bool, trigger: u8) -> bool
        ensures { result ≡ data_stands fifo trigger self }
    {
        if fifo {
            trigger <= self.queue.count
        } else {
            !self.is_empty()
        }
    }

    #[tactic(auto, unfolding(crate::specs::Receiver::timeout_stands))]
    pub fn timed_out(self) -> bool
        ensures { result ≡ timeout_stands self }
    {
        self.timeout == Receiver::TIMEOUT
    }
}

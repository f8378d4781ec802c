// One TL16C552A channel, register by register: the state, its parts, and one event at a time.
#![tactic(auto)]

use base::Answer;
use receiver::Receiver;
use registers::{SeatEvent, Settings};
use transmitter::Transmitter;

mod reads;
mod wire;
mod writes;

ghost use Rattle.std.specs.Prelude.{◌≡◌};
ghost use Rattle.channel.specs.Parts.{power_up, master_reset};
ghost use Rattle.channel.specs.Status.{line};
ghost use Rattle.channel.specs.Steps.{stepped, answered as Steps·answered};

// `levels` are the inputs last given, `changes` the bits 0 to 3 of the MSR.
#[repr(C)]
#[derive(Clone, Copy, Default)]
pub struct Modem {
    pub levels: u8,
    pub changes: u8,
}

#[repr(C)]
#[derive(Clone, Copy)]
pub struct Channel {
    pub settings: Settings,
    pub receiver: Receiver,
    pub transmitter: Transmitter,
    pub modem: Modem,
}

// The channel after an event, and what the event was answered with.
#[derive(Clone, Copy)]
pub struct Stepped {
    pub channel: Channel,
    pub answer: Answer,
}

impl Channel {
    pub fn power_up() -> Channel
        ensures { result ≡ power_up }
    {
        Channel {
            settings: Settings::default(),
            receiver: Receiver::power_up(),
            transmitter: Transmitter::power_up(),
            modem: Modem::default(),
        }
    }

    #[tactic(auto, unfolding(crate::specs::Parts::master_reset))]
    pub fn master_reset(mut self) -> Channel
        ensures { result ≡ master_reset self }
    {
        self.settings.ier = 0;
        self.settings.fcr = 0;
        self.settings.lcr = 0;
        self.settings.mcr = 0;
        self.receiver = self.receiver.restart();
        self.transmitter = Transmitter::power_up();
        self.modem.changes = 0;
        self
    }

    #[tactic(auto, unfolding(crate::specs::Steps::stepped, base::specs::Refusals::number_given, base::specs::Pick::pick))]
    pub fn step(self, e: SeatEvent) -> Stepped
        ensures { result ≡ stepped self e }
    {
        if let Some(refusal) = self.settings.refusal(e) {
            return self.answered(Answer::Refused(refusal.number()));
        }
        // Each arm returns by itself: a value that all arms join in is copied once more in every event.
        match e {
            SeatEvent::Read(number) => return self.read(number),
            SeatEvent::Write(number, byte) => return self.written(number, byte),
            SeatEvent::Arrival(marks, byte) => return self.arrived(marks, byte),
            SeatEvent::Levels(levels) => return self.levels_given(levels),
            SeatEvent::Time => return self.time_passed(),
        }
    }

    // The channel as it is now, with this answer.
    pub(crate) fn answered(self, answer: Answer) -> Stepped
        ensures { result ≡ Steps·answered self answer }
    {
        Stepped {
            channel: self,
            answer,
        }
    }

    pub fn line(self) -> bool
        ensures { result ≡ line self }
    {
        status::line(
            self.settings,
            self.receiver,
            self.transmitter,
            self.modem.changes,
        )
    }
}

// When a cause stands. Each condition is reckoned once, and the table of causes asks for it by its name.
ghost use Rattle.std.specs.Prelude.{◌≡◌};
ghost use Rattle.status.specs.Table.{holds};

// A row of the table stands when there is:
#[derive(Clone, Copy)]
pub(crate) enum When {
    // "any of LSR 1-4"
    Trouble,
    // "data, which is a character in 16450 mode and the trigger reached in FIFO mode"
    Data,
    // "time-out count 4"
    Timeout,
    // "holding-empty flag"
    Flag,
    // "any of MSR 0-3"
    Change,
}

// Which of these there are.
#[derive(Clone, Copy)]
pub(crate) struct Standing {
    pub(crate) trouble: bool,
    pub(crate) data: bool,
    pub(crate) timeout: bool,
    pub(crate) flag: bool,
    pub(crate) change: bool,
}

impl Standing {
    pub(crate) fn holds(self, when: When) -> bool
        ensures { result ≡ holds self when }
    {
        match when {
            When::Trouble => self.trouble,
            When::Data => self.data,
            When::Timeout => self.timeout,
            When::Flag => self.flag,
            When::Change => self.change,
        }
    }
}

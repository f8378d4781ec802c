// The MSR: the changes that stand, and the inputs as the channel sees them.
ghost use Rattle.std.specs.Prelude.{◌≡◌};
ghost use Rattle.registers.specs.Modem.{changes_after, msr_of, some_change};

// "1 CTS, 2 DSR, 4 RI, 8 DCD", by their bits, of the levels and of the changes alike; and all of them together.
const LEVEL_CTS: u8 = 0;

const LEVEL_DSR: u8 = 1;

const LEVEL_RI: u8 = 2;

const LEVEL_DCD: u8 = 3;

pub(crate) const ALL_LEVELS: u8 = 15;

#[tactic(auto, unfolding(crate::specs::Modem::changes_after))]
pub fn changes_after(changes: u8, before: u8, after: u8) -> u8
    ensures { result ≡ changes_after changes before after }
{
    base::nibble(
        base::bit(LEVEL_CTS, changes)
            | (base::bit(LEVEL_CTS, before) != base::bit(LEVEL_CTS, after)),
        base::bit(LEVEL_DSR, changes)
            | (base::bit(LEVEL_DSR, before) != base::bit(LEVEL_DSR, after)),
        base::bit(LEVEL_RI, changes) | (base::bit(LEVEL_RI, before) & !base::bit(LEVEL_RI, after)),
        base::bit(LEVEL_DCD, changes)
            | (base::bit(LEVEL_DCD, before) != base::bit(LEVEL_DCD, after)),
    )
}

#[tactic(auto, unfolding(crate::specs::Modem::msr_of))]
pub fn modem_status(changes: u8, inputs: u8) -> u8
    ensures { result ≡ msr_of changes inputs }
{
    base::byte_of(
        base::bit(LEVEL_CTS, changes),
        base::bit(LEVEL_DSR, changes),
        base::bit(LEVEL_RI, changes),
        base::bit(LEVEL_DCD, changes),
        base::bit(LEVEL_CTS, inputs),
        base::bit(LEVEL_DSR, inputs),
        base::bit(LEVEL_RI, inputs),
        base::bit(LEVEL_DCD, inputs),
    )
}

#[tactic(auto, unfolding(crate::specs::Modem::some_change))]
pub fn any_change(changes: u8) -> bool
    ensures { result ≡ some_change changes }
{
    base::bit(LEVEL_CTS, changes)
        | base::bit(LEVEL_DSR, changes)
        | base::bit(LEVEL_RI, changes)
        | base::bit(LEVEL_DCD, changes)
}

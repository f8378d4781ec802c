// Loopback (ticket 7 of document 02): the outputs of the MCR feed the modem inputs.
ghost use Rattle.std.specs.Prelude.{◌≡◌};
ghost use Rattle.registers.specs.Loopback.{looped, inputs_of};

use crate::Settings;

impl Settings {
    pub fn is_looped(self) -> bool
        ensures { result ≡ looped self.mcr }
    {
        base::bit(Settings::MCR_LOOP, self.mcr)
    }
}

// The modem inputs as the channel sees them, by its MCR and the levels last given. RTS feeds CTS, and DTR feeds DSR: they cross.
#[tactic(auto, unfolding(crate::specs::Loopback::inputs_of, base::specs::Pick::pick))]
pub fn inputs(mcr: u8, levels: u8) -> u8
    ensures { result ≡ inputs_of mcr levels }
{
    if base::bit(Settings::MCR_LOOP, mcr) {
        return base::nibble(
            base::bit(Settings::MCR_RTS, mcr),
            base::bit(Settings::MCR_DTR, mcr),
            base::bit(Settings::MCR_OUT1, mcr),
            base::bit(Settings::MCR_OUT2, mcr),
        );
    }
    levels
}

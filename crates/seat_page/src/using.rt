// Whether anything of a seat is not as at power-up.
ghost use Rattle.std.specs.Prelude.{◌≡◌};
ghost use Rattle.seat_page.specs.Using.{some_setting, some_modem, some_to_send, some_arrived, in_use};

use channel::Modem;
use registers::Settings;
use seat::{Seat, Tallies};
use transmitter::Transmitter;

fn any_setting(s: Settings) -> bool
    ensures { result ≡ some_setting s }
{
    (s.ier != 0)
        | (s.fcr != 0)
        | (s.lcr != 0)
        | (s.mcr != 0)
        | (s.scratch != 0)
        | (s.dll != 0)
        | (s.dlm != 0)
}

fn any_modem(m: Modem) -> bool
    ensures { result ≡ some_modem m }
{
    (m.levels != 0) | (m.changes != 0)
}

fn any_to_send(t: Transmitter) -> bool
    ensures { result ≡ some_to_send t }
{
    !t.is_empty() | t.busy | t.flag
}

fn any_arrived(t: Tallies) -> bool
    ensures { result ≡ some_arrived t }
{
    t.arrived != 0
}

pub fn is_in_use(held: Seat) -> bool
    ensures { result ≡ in_use held }
{
    let c = held.channel;
    any_setting(c.settings)
        | any_modem(c.modem)
        | any_to_send(c.transmitter)
        | any_arrived(held.tallies)
}

// The state of the bench, a page for each seat in use and one for the controller.
use crate::telling::print;
use bench::Bench;
use records::Event;
use std::io;

// The seats in use, beside those that are named already.
pub(crate) fn in_use(bench: Bench, named: u8) -> u8 {
    let mut used = named;
    for (n, seat) in bench.seats.iter().enumerate() {
        if seat_page::is_in_use(*seat) {
            used = sight::named(used, Event::READ_REGISTER, n as u8);
        }
    }
    used
}

pub(crate) fn show(rt: &HostRuntime, bench: Bench) -> io::Result<()> {
    for (n, seat) in bench.seats.iter().enumerate() {
        if seat_page::is_in_use(*seat) {
            print(rt, seat_page::seat(*seat, n as u8))?;
        }
    }
    print(rt, controller_page::controller(bench.controller))
}

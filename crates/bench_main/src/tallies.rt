// The tallies of all seats, where the words ask for them.
use crate::{told, words};
use bench::Bench;
use records::SEATS;

pub(crate) fn tell(rt: &HostRuntime, bench: Bench) {
    let words = words::read(rt);
    if words.place_of(options::TALLIES).is_none() {
        return;
    }
    for n in 0..SEATS {
        if let Ok(five) = bench.tallies(n as u8) {
            told::tallies(rt, n as u8, five);
        }
    }
}

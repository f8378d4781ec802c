// Asks the divisor list for every rate of document 01 and its two neighbours, at the three clocks and one more, and for the
// edges of both numbers. A line each: clock, rate in tenths of a baud, refusal number, answer in three hex capitals.
#![tactic(auto)]

use std::io::Result;

const CLOCKS: u8 = 4;

// Rates at the edges, each with the clock that it is asked at.
const EDGES: [(u32, u8); 11] = [
    (0, 0),
    (1, 0),
    (4294967295, 0),
    (500, 4),
    (500, 255),
    (12000, 255),
    (560000, 1),
    (560000, 2),
    (9600, 0),
    (65536, 0),
    (4294967295, 255),
];

fn ask(rt: &impl Print, rate: u32, clock: u8) -> Result<()> {
    let answer = rates::divisor(rate, clock);
    let refusal = answer.refusal();
    let value = u32::from(answer.value());
    let [high, middle, low] = [value / 256, value / 16, value].map(|n| text::capital(n));
    print!(rt; "{clock} {rate} {refusal}")?;
    rt.write_all(&[b' ', high, middle, low, b'\n'])
}

// Wrapping, since nothing here says that a listed rate has neighbours.
fn ask_around(rt: &impl Print, rate: u32, clock: u8) -> Result<()> {
    ask(rt, rate.wrapping_sub(1), clock)?;
    ask(rt, rate, clock)?;
    ask(rt, rate.wrapping_add(1), clock)
}

fn ask_table(rt: &impl Print, clock: u8) -> Result<()> {
    for rate in rates::RATES {
        ask_around(rt, rate, clock)?;
    }
    Ok(())
}

fn ask_edges(rt: &impl Print) -> Result<()> {
    for (rate, clock) in EDGES {
        ask(rt, rate, clock)?;
    }
    Ok(())
}

fn main(rt: HostRuntime) -> Result<()> {
    for clock in 0..CLOCKS {
        ask_table(&rt, clock)?;
    }
    ask_edges(&rt)
}

// Runs streams of events over the proved bench and prints a line for each: seed and count in decimal, the digest, the letter digest and
// the tally digest in eight hex capitals each; of a pair, the digest and both sights. With no argument, the three lists of second/TRIALS.md; with SEED and
// COUNT, and SET and START where they are not 0, that stream alone; with `images` before them, as a trial of saved benches, with `pairs` as a pair.
#![tactic(auto)]

use digest::Digest;
use list::{Kind, Trial};
use starts::Start;
use std::env::Env;
use std::io::Result;
use streams::SETS;

mod buffers;
mod crossing;
mod damages;
mod digest;
mod images;
mod lent;
mod list;
mod pairs;
mod picks;
mod runs;
mod sides;
mod starts;
mod transfers;
mod words;
mod wounds;

fn usage(rt: &impl Eprint) -> Result<()> {
    rt.eprint(
        "usage: trials [[images|pairs] SEED COUNT [SET [START]]], with SEED below 4294967296, SET and START of second/TRIALS.md\n",
    )
}

// Over the bench of the start; a pair has that of the other start too.
fn digests(trial: Trial) -> [Digest; 3] {
    let Trial(kind, seed, count, set, start) = trial;
    let bench = start.bench();
    match kind {
        Kind::Stream => runs::digests(seed, count, set, bench),
        Kind::Images => images::digests(seed, count, set, bench),
        Kind::Pairs => pairs::digests(seed, count, set, bench, start.other().bench()),
    }
}

fn run(rt: &impl Print, trial: Trial) -> Result<()> {
    let Trial(_, seed, count, _, _) = trial;
    let [first, second, third] = digests(trial).map(Digest::number);
    println!(rt; "{seed} {count} {first:08X} {second:08X} {third:08X}")
}

fn run_list(rt: &impl Print) -> Result<()> {
    for trial in list::LIST {
        run(rt, trial)?;
    }
    Ok(())
}

// The numbers stand from this word on, two to four of them.
fn asked(rt: &impl Env, kind: Kind, first: u8, words: usize) -> Option<Trial> {
    let at = first as usize;
    if words < at + 2 || words > at + 4 {
        return None;
    }
    let seed = u32::try_from(words::argument(rt, at, words)?).ok()?;
    let count = words::argument(rt, at + 1, words)?;
    let set = u8::try_from(words::argument(rt, at + 2, words)?).ok()?;
    let start = Start::numbered(words::argument(rt, at + 3, words)?)?;
    (set < SETS).then_some(Trial(kind, seed, count, set, start))
}

fn run_asked(rt: &(impl Env + Print + Eprint), kind: Kind, first: u8, words: usize) -> Result<()> {
    match asked(rt, kind, first, words) {
        Some(trial) => run(rt, trial),
        None => usage(rt),
    }
}

fn main(rt: HostRuntime) -> Result<()> {
    let words = words::count(&rt);
    if words == 1 {
        run_list(&rt)
    } else if let Some(kind) = words::kind(&rt) {
        run_asked(&rt, kind, 2, words)
    } else {
        run_asked(&rt, Kind::Stream, 1, words)
    }
}

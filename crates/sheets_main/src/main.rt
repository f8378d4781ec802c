// The settings program: lines of a control sheet from standard input, their answers to standard output.
#![tactic(auto)]

mod buffers;
mod input;
mod kinds;
mod told;
mod words;

use kinds::Sheet;
use std::env::Env;
use std::io::{ErrorKind, Input, Result};
use std::process::ExitCode;

// What a shell shows where the signal of a pipe without a reader ends a program. The library holds that signal back.
const NO_READER: u8 = 141;

fn run_settings(rt: &(impl Env + Input + Print + Eprint)) -> Result<()> {
    match words::clock(rt) {
        Some(clock) => input::run(rt, Sheet::of_lines(clock)),
        None => {
            told::usage(rt);
            Ok(())
        }
    }
}

// An error is that of a write; all else is told where it comes up.
fn run(rt: &(impl Env + Input + Print + Eprint)) -> Result<()> {
    let words = words::count(rt);
    if (words == 2) & words::is_word(rt, b"--settings-write") {
        return input::run(rt, Sheet::of_numbers());
    }
    if (words == 3) & words::is_word(rt, b"--settings") {
        return run_settings(rt);
    }
    told::usage(rt);
    Ok(())
}

// That nobody reads the answers any more is not told.
fn status(rt: &impl Eprint, written: Result<()>) -> ExitCode {
    let Err(error) = written else {
        return ExitCode::SUCCESS;
    };
    if error.kind() == ErrorKind::BrokenPipe {
        return ExitCode::from(NO_READER);
    }
    told::write_failed(rt);
    ExitCode::SUCCESS
}

fn main(rt: HostRuntime) -> ExitCode {
    status(&rt, run(&rt))
}

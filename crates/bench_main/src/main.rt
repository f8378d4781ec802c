// The bench program: records from standard input, or the lesson that a word names; the listing to standard output, in words where they are asked for.
// Images are read from files and written to files, states and tallies told, and a timeline written, as the words ask for them.
#![tactic(auto)]

mod course;
mod files;
mod images;
mod input;
mod lessons;
mod saves;
mod states;
mod tallies;
mod telling;
mod timelines;
mod told;
mod words;

use std::process::ExitCode;

fn main(rt: HostRuntime) -> ExitCode {
    let words = words::read(&rt);
    if !words.are_whole() {
        told::wrong_words(&rt, words.wrong);
        return ExitCode::SUCCESS;
    }
    let Some(bench) = images::open(&rt, words.place_of(options::IMAGE)) else {
        return ExitCode::SUCCESS;
    };
    let Some(lesson) = words.place_of(options::LESSON) else {
        return input::run(&rt, bench);
    };
    lessons::run(&rt, lesson.saturating_sub(1), lesson, bench)
}

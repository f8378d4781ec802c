// What is said on standard error. A byte 1 stands before each fault and a byte 2 before words that are wrong, as in `bench_main`.
// Where it cannot be said, nobody is left to be told so.

fn say(rt: &impl Eprint, words: &str) {
    let _ = rt.eprint(words);
}

pub(crate) fn usage(rt: &impl Eprint) {
    say(rt, "\x02usage: bench --settings CLOCK | --settings-write\n");
}

pub(crate) fn not_four(rt: &impl Eprint, line: u64) {
    let _ = eprint!(rt; "\x01bench: line {line} is not four numbers: CLOCK DIVISOR LCR ROOM\n");
}

pub(crate) fn read_failed(rt: &impl Eprint) {
    say(rt, "\x01bench: standard input could not be read\n");
}

pub(crate) fn write_failed(rt: &impl Eprint) {
    say(rt, "\x01bench: the answers could not be written\n");
}

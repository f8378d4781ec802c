// Where the scripts stand in the table of rows.

// One list for all sets: "a later set appends to it".
const SCRIPTS: usize = 74;

// "The first row of each script, in order of the scripts, and last the number of rows."
const FIRST_ROWS: [u16; SCRIPTS + 1] = [
    0, 6, 12, 15, 18, 21, 23, 31, 35, 39, 40, 41, 45, 53, 56, 62, 66, 70, 73, 76, 81, 85, 91, 100,
    101, 103, 106, 108, 109, 112, 115, 118, 122, 134, 136, 138, 140, 142, 144, 146, 148, 150, 151,
    152, 156, 163, 165, 167, 168, 169, 171, 172, 174, 175, 176, 178, 181, 184, 189, 194, 199, 201,
    203, 205, 209, 215, 218, 222, 227, 235, 241, 251, 255, 261, 263,
];

// A script's first row, and the first row after it.
#[derive(Clone, Copy)]
pub(crate) struct Span {
    pub row: u16,
    pub stop: u16,
}

// The remainder is there so that it need not be shown that the table has the script.
pub(crate) fn span_of(script: u8) -> Span {
    let at = script as usize % SCRIPTS;
    Span {
        row: FIRST_ROWS[at],
        stop: FIRST_ROWS[at + 1],
    }
}

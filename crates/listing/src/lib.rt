// Records in, lines out: the listing of a run of records, byte for byte.
#![tactic(auto)]

use base::Answer;
use bench::Bench;

mod front;
mod held;
mod runs;

pub use runs::run;

// "An event is a four-byte record".
pub(crate) const RECORD_BYTES: usize = 4;

// What a run leaves: the bench after it, the answer of the last record (`Done` of none), the records that it answered, the bytes
// of the input that they were, and the bytes that it wrote. The next record has the number of the first plus `records`.
#[derive(Clone, Copy)]
pub struct Ran {
    pub bench: Bench,
    pub answer: Answer,
    pub records: usize,
    pub used: usize,
    pub written: usize,
}

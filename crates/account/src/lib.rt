// One record told: its line of the listing, what was done, what came of it, what moved, and the lesson's comment.
#![tactic(auto)]

mod heads;
mod telling;

use bench::Bench;
use page::Page;
pub use telling::{record, short};

// The bench behind a record, and the record's page.
#[derive(Clone, Copy)]
pub struct Told {
    pub bench: Bench,
    pub page: Page,
}

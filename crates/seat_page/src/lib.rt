// The state of a seat in words: whether it is in use, and its page.
#![tactic(auto)]

mod queues;
mod seats;
mod using;

pub use seats::seat;
pub use using::is_in_use;

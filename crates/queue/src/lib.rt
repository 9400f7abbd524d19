// A queue of requests, the oldest first, in memory that is part of its value: making it cannot fail.
#![tactic(auto)]

mod emptying;
mod filling;
pub mod head;
mod marking;
mod payloads;
mod queue;
mod reading;

pub use head::Head;
pub use queue::{CAPACITY, MOST, Queue};

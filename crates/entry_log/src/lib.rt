// A log of entries that is kept compact: of each name the last entry, and none that holds the default.
#![tactic(auto)]

pub mod item;
mod log;
mod marking;
mod noting;
mod reading;

pub use item::{Full, Item};
pub use kinds::{EntryKind, Membership, Setting};
pub use log::Log;

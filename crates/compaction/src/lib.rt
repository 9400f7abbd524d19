// Entries, the compaction of a list of them, and the theorems about it.
#![tactic(auto)]

pub mod entry;
mod theory;

pub use entry::Entry;
pub use theory::theory_stands;

// Entries with marks: what is looked up among them, and which of them go.
#![tactic(auto)]

pub mod item;
mod marking;
mod slices;

pub use item::Item;
pub use slices::{drop_same, find, last_content, remove_same, stays};

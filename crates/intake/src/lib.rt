// Frames from a wire into a store: each is received, stored, and only then announced and acknowledged.
#![tactic(auto)]

pub mod event;
mod intake;
mod taking;
mod wires;

pub use event::{Event, Silence};
pub use intake::Intake;

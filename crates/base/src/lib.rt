// A driver over any device.
#![tactic(auto)]

mod driving;
mod noting;
mod parts;

pub use parts::BaseDriver;

// A layer over any driver that makes one call fail.
#![tactic(auto)]

mod layer;
pub mod parts;
mod plans;

pub use parts::Faulty;

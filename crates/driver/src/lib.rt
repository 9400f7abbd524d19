// Drivers: the trait that every driver has, and the rules that it keeps.
#![tactic(auto)]

pub mod answers;
mod driver;

pub use answers::{Collected, Header};
pub use driver::Driver;

// The log on examples, with the settings of the block class.
#![tactic(auto)]

mod client;
mod digit;
#[cfg(test)]
mod tests;

pub use client::note_handed;
pub use digit::LastDigit;

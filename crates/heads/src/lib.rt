// What a queue keeps of a request, and how requests lie in a list of bytes.
#![tactic(auto)]

pub mod head;
mod marking;

pub use head::Head;

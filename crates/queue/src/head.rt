// What a queue keeps of a request, as `heads` has it.
pub use heads::Head;

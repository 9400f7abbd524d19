// What a log holds, and why it may refuse an entry.
pub use entries::Item;

// There is no room: more than 24 entries would stand in the log.
#[derive(Clone, Copy, PartialEq, Eq, Debug)]
pub struct Full;

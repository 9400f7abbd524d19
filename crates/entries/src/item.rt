// An entry in a log.
use compaction::Entry;

// An entry, and whether it has been handed on.
#[derive(Clone, Copy, PartialEq, Eq, Debug, Default)]
pub struct Item {
    pub entry: Entry,
    pub handed: bool,
}

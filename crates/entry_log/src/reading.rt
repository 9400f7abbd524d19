// What a log holds.
ghost use Rattle.std.specs.Prelude.{◌≡◌, ◌≤◌, List, length};
ghost use Rattle.std.specs.List.{slice_get};
ghost use Rattle.compaction.specs.Places.{place_from};
ghost use Rattle.compaction.specs.Replay.{replay};
ghost use Rattle.entry_log.specs.Items.{entries_of, Records};

use crate::log::Log;
use compaction::Entry;
use entries::{Item, find, last_content};
use kinds::EntryKind;

impl<K> Log<K> {
    // How many entries there are: never more than 24.
    pub fn len(&self) -> usize
        ensures value { result ≡ length self.now }
        ensures few { length self.now ≤ 24 }
    {
        self.items.len()
    }

    // The i-th entry from 0, the oldest first.
    pub fn entry(&self, i: usize) -> Option<Item>
        ensures { result ≡ slice_get self.now i }
    {
        self.items.get(i).copied()
    }
}

impl<K: EntryKind> Log<K> {
    // The content of a name: what its last entry gives it, else the default.
    pub fn content(&self, name: u64) -> u64
        ensures value { result ≡ replay K.kind (entries_of self.now) name }
        ensures replayed { (h : List Entry) → Records K.kind h self.now → result ≡ replay K.kind h name }
    {
        last_content::<K>(&self.items, name)
    }

    // Where the entry of a name stands.
    pub fn position(&self, name: u64) -> Option<usize>
        ensures { result ≡ place_from K.kind name 0 (entries_of self.now) }
    {
        find::<K>(&self.items, name)
    }
}

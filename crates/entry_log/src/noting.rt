// How a log is made and changed.
ghost use Rattle.std.specs.Prelude.{◌≡◌, true, false, List, [], ◌∷◌, ◌++◌, map, length, is_ok, IfOk, if◌then◌else◌, nat_le, nat_lt};
ghost use Rattle.compaction.specs.Compaction.{compact, entry_of};
ghost use Rattle.entry_log.specs.Items.{Records, fresh, other_items, noted};

use crate::item::Full;
use crate::log::Log;
use arrayvec::ArrayVec;
use compaction::Entry;
use entries::{Item, remove_same, stays};
use kinds::EntryKind;
use std::marker::PhantomData;

impl<K> Log<K> {
    // A log with no entry.
    pub fn new() -> Log<K>
        ensures { result ≡ [] }
    {
        Log {
            items: ArrayVec::new(),
            kind: PhantomData,
        }
    }

    // One more entry at the end, not handed on; refused, with nothing changed, where 24 stand there.
    fn append(&mut self, entry: Entry) -> Result<(), Full>
        ensures test { is_ok result ≡ nat_lt (length self.old) 24 }
        ensures refused { is_ok result ≡ false → self.new ≡ self.old }
        ensures after { self.new ≡ (if is_ok result then self.old ++ fresh entry ∷ [] else self.old) }
    {
        let item = Item {
            entry,
            handed: false,
        };
        self.items.try_push(item).map_err(|_| Full)
    }

    // Takes every entry out.
    pub fn clear(&mut self)
        ensures { self.new ≡ [] }
    {
        self.items.clear();
    }
}

impl<K: EntryKind> Log<K> {
    // The compaction of any entries, none of them handed on; refused where it has more than 24.
    pub fn from_entries(entries: &[Entry]) -> Result<Log<K>, Full>
        ensures test { is_ok result ≡ nat_le (length (compact K.kind entries.now)) 24 }
        ensures holds { IfOk result (λ l. l ≡ map fresh (compact K.kind entries.now)) }
        ensures records { IfOk result (λ l. Records K.kind entries.now l) }
    {
        let mut log = Log::new();
        // a rule of the project: a loop over the entries with their index looks for later ones of the same name
        for (i, entry) in entries.iter().enumerate() {
            if stays::<K>(entry, &entries[i + 1..]) {
                log.append(*entry)?;
            }
        }
        Ok(log)
    }

    // Gives a name a content. Its entry stands last, not handed on; where that is the default, it has none.
    // Refused, with nothing changed, where there would be more than 24 entries.
    pub fn note(&mut self, name: u64, content: u64) -> Result<(), Full>
        ensures test { is_ok result ≡ nat_le (length (noted K.kind (entry_of name content) self.old)) 24 }
        ensures refused { is_ok result ≡ false → self.new ≡ self.old }
        ensures after { self.new ≡ (if is_ok result then noted K.kind (entry_of name content) self.old else self.old) }
        ensures records { is_ok result ≡ true → (h : List Entry) → Records K.kind h self.old → Records K.kind (h ++ entry_of name content ∷ []) self.new }
    {
        if content == K::default_content(name) {
            remove_same::<K, _>(&mut self.items, name);
            return Ok(());
        }
        if !self.has_room(name) {
            return Err(Full);
        }
        remove_same::<K, _>(&mut self.items, name);
        self.append(Entry { name, content })
    }

    // Whether an entry of this name fits: one that stands there already makes room for it.
    #[tactic(auto, using(entries::proofs::Updates::length_others_le, entries::proofs::Updates::place_room))]
    fn has_room(&self, name: u64) -> bool
        ensures { result ≡ nat_lt (length (other_items K.kind name self.now)) 24 }
    {
        !self.items.is_full() || self.position(name).is_some()
    }
}

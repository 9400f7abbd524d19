// What is read of a log's entries, and what goes out of them.
ghost use Rattle.std.specs.Prelude.{◌≡◌, ◌≤◌, not, ◌||◌, take};
ghost use Rattle.arrayvec.specs.ArrayVec.{array_vec_len};
ghost use Rattle.compaction.specs.Compaction.{named, holds_default};
ghost use Rattle.compaction.specs.Places.{place_from};
ghost use Rattle.compaction.specs.Replay.{replay};
ghost use Rattle.entries.specs.Items.{entries_of, other_items};

use crate::item::Item;
use arrayvec::ArrayVec;
use compaction::Entry;
use kinds::EntryKind;

// What the last entry of a name gives it, else the default.
pub fn last_content<K: EntryKind>(items: &[Item], name: u64) -> u64
    ensures { result ≡ replay K.kind (entries_of items.now) name }
{
    items
        .iter()
        .rfind(|item| K::is_same(item.entry.name, name))
        .map_or_else(|| K::default_content(name), |item| item.entry.content)
}

// Where the first entry of a name stands.
pub fn find<K: EntryKind>(items: &[Item], name: u64) -> Option<usize>
    ensures { result ≡ place_from K.kind name 0 (entries_of items.now) }
{
    items
        .iter()
        .position(|item| K::is_same(item.entry.name, name))
}

// Takes the entries of a name out of the first n, and says how many are left; they keep their order and their marks.
pub fn drop_same<K: EntryKind>(items: &mut [Item], n: usize, name: u64) -> usize
    ensures bound { result ≤ n }
    ensures after { take result items.new ≡ other_items K.kind name (take n items.old) }
{
    // a loop, since a slice has no `retain`
    let mut left = 0;
    for i in 0..n.min(items.len()) {
        let item = items[i];
        if !K::is_same(item.entry.name, name) {
            items[left] = item;
            left += 1;
        }
    }
    left
}

// The same for all of a vector, which ends after those that are left.
pub fn remove_same<K: EntryKind, const N: usize>(items: &mut ArrayVec<Item, N>, name: u64)
    ensures after { items.new.items ≡ other_items K.kind name items.old.items }
    ensures bound { array_vec_len items.new ≤ array_vec_len items.old }
{
    let count = items.len();
    let left = drop_same::<K>(items.as_mut_slice(), count, name);
    items.truncate(left);
}

// Whether an entry stays in the compaction, given those that come after it.
pub fn stays<K: EntryKind>(first: &Entry, later: &[Entry]) -> bool
    ensures { result ≡ not (named K.kind first.now.name later.now || holds_default K.kind first.now) }
{
    // a loop, since `any` took twice the time
    for next in later {
        if K::is_same(next.name, first.name) {
            return false;
        }
    }
    first.content != K::default_content(first.name)
}

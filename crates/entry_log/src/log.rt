// The log itself: at most 24 entries, in memory that is part of the value.
use arrayvec::ArrayVec;
use entries::Item;
use std::marker::{Model, PhantomData};

// How many entries a log has room for.
pub(crate) const CAPACITY: usize = 24;

#[derive(Drop)]
pub struct Log<K> {
    // the oldest first
    pub(crate) items: ArrayVec<Item, CAPACITY>,
    pub(crate) kind: PhantomData<K>,
}

impl<K> Model for Log<K> {
    ghost use Rattle.std.specs.Prelude.{List, ◌≤◌, length};
    ghost use Rattle.entries.specs.declared.item.Item.{Item};

    ghost Value = { List Item };

    ghost view = { λ l. l.items.items };

    ghost invariant = { λ l. length l.items.items ≤ 24 };
}

// The mark of an item. A head of a queue has its own two lines: a wrapper with a mark round both would be no plainer.
ghost use Rattle.entries.specs.Items.{marked};

use crate::item::Item;
use marks::Marked;

impl Marked for Item {
    ghost handed = { λ i. i.handed };

    ghost remarked = { marked };

    fn is_handed(&self) -> bool {
        self.handed
    }

    fn mark(&mut self, on: bool) {
        self.handed = on;
    }
}

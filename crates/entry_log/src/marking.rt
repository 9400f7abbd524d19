// Which entries have been handed on. A queue has calls of the same names: all but `hand` are one line
// over the generic ones of `marks`, with a clause about its own list. A generic `hand` would be as long, and need a
// third definition of a list with one mark set.
ghost use Rattle.std.specs.Prelude.{◌≡◌, ◌≤◌, false, not, map, length, count_by};
ghost use Rattle.marks.specs.First.{firstFrom};
ghost use Rattle.entry_log.specs.Items.{entries_of, marked, hand_at};

use crate::log::Log;

impl<K> Log<K> {
    // Marks the i-th entry as handed on; where there is none, nothing changes.
    pub fn hand(&mut self, i: usize)
        ensures after { self.new ≡ hand_at i self.old }
        ensures same { entries_of self.new ≡ entries_of self.old }
        ensures past { length self.old ≤ i → self.new ≡ self.old }
    {
        if let Some(item) = self.items.get_mut(i) {
            item.handed = true;
        }
    }

    // Takes every mark away.
    #[tactic(auto, using(std::proofs::lemmas::Grind::common_steps, entries::proofs::Handing::entries_unhand))]
    pub fn unhand_all(&mut self)
        ensures after { self.new ≡ map (marked false) self.old }
        ensures same { entries_of self.new ≡ entries_of self.old }
    {
        marks::unhand_all(&mut self.items);
    }

    // The place of the first entry that has not been handed on.
    pub fn first_unhanded(&self) -> Option<usize>
        ensures { result ≡ firstFrom (λ i. i.handed) 0 self.now }
    {
        marks::first_unhanded(&self.items)
    }

    // How many entries have not been handed on.
    pub fn unhanded(&self) -> usize
        ensures { result ≡ count_by (λ i. not i.handed) self.now }
    {
        marks::unhanded(&self.items)
    }
}

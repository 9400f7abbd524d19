// The marks of the requests: which have been handed on. A log has calls of the same names: all but `hand` are one line
// over the generic ones of `marks`, with a clause about its own list. A generic `hand` would be as long, and need a
// third definition of a list with one mark set.
ghost use Rattle.std.specs.Prelude.{◌≡◌, ◌≤◌, false, not, map, count_by};
ghost use Rattle.marks.specs.First.{firstFrom};
ghost use Rattle.heads.specs.Limits.{most};
ghost use Rattle.heads.specs.Kept.{marked, handed_at};

use crate::queue::Queue;

impl Queue {
    // Notes that the i-th request is handed on; past the last nothing happens.
    #[tactic(auto, using(heads::proofs::Laid::laid_handed, heads::proofs::Laid::laid_past))]
    pub fn hand(&mut self, i: usize)
        ensures { self.new ≡ handed_at i self.old }
    {
        if let Some(head) = self.heads.get_mut(i) {
            head.handed = true;
        }
    }

    // Takes every mark away.
    pub fn unhand_all(&mut self)
        ensures { self.new ≡ map (marked false) self.old }
    {
        marks::unhand_all(&mut self.heads);
    }

    // The index of the oldest request that is not handed on, if there is one.
    #[tactic(auto, using(heads::proofs::Laid::first_laid))]
    pub fn first_unhanded(&self) -> Option<usize>
        ensures { result ≡ firstFrom (λ k. k.handed) 0 self.now }
    {
        marks::first_unhanded(&self.heads)
    }

    // How many requests are not handed on.
    #[tactic(auto, using(heads::proofs::Laid::count_laid))]
    pub fn unhanded(&self) -> usize
        ensures value { result ≡ count_by (λ k. not k.handed) self.now }
        ensures bound { result ≤ most }
    {
        marks::unhanded(&self.heads)
    }
}

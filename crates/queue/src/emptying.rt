// Requests are removed.
ghost use Rattle.std.specs.Prelude.{◌≡◌, [], drop};

use crate::queue::Queue;

impl Queue {
    // Removes the oldest request; where there is none nothing happens.
    #[tactic(auto, using(heads::proofs::Laid::total_oldest, heads::proofs::Laid::laid_oldest))]
    pub fn pop(&mut self)
        ensures { self.new ≡ drop 1 self.old }
    {
        if let Some(oldest) = self.heads.pop_at(0) {
            self.payloads.skip(oldest.size);
        }
    }

    // Removes every request.
    pub fn clear(&mut self)
        ensures { self.new ≡ [] }
    {
        self.heads.clear();
        self.payloads.clear();
    }
}

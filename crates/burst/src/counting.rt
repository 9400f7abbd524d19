// Counting what becomes of frames.
ghost use Rattle.std.specs.Prelude.{◌≡◌};
ghost use Rattle.burst.specs.Counts.{added, counted};

use crate::tally::Tally;
use intake::Event;

impl Tally {
    pub(crate) fn count(&mut self, event: Event)
        ensures { self.new ≡ counted self.old event }
    {
        match event {
            Event::Stored { size, .. } | Event::Unacknowledged { size, .. } => self.add(size),
            Event::NotStored { .. } => self.refused = self.refused.saturating_add(1),
            Event::Ended | Event::Silent(_) => {}
        }
    }

    // One stored frame more, of so many bytes.
    fn add(&mut self, size: usize)
        ensures { self.new ≡ added self.old size }
    {
        self.stored = self.stored.saturating_add(1);
        self.bytes = self.bytes.saturating_add(size);
    }
}

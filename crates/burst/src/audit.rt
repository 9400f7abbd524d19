// Whether what was stored is on a disk.
ghost use Rattle.std.specs.Prelude.{◌≡◌, ℕ, Bool, List};
ghost use Rattle.arrivals.specs.Runs.{frames_of};
ghost use Rattle.store.specs.Blocks.{record_blocks};
ghost use Rattle.burst.specs.Audits.{DiskLooks, DriverLooks, Audited, count_of};

use block::Block;
use driver::Driver;
use network::{frames_in, is_group};
use store::record_of;

// Where frames were stored, and are looked for.
pub trait Shelf {
    // What looking for the record of a frame from a block on comes to.
    ghost looks: { Self → ℕ → List ℕ → Bool → Self → Type 0 };

    // Whether the record of a frame begins in a block.
    fn has(&mut self, first: u32, frame: &[u8]) -> bool
        ensures { looks self.old first frame.now result self.new };
}

impl Shelf for store::Store {
    ghost looks = { DiskLooks };

    fn has(&mut self, first: u32, frame: &[u8]) -> bool {
        self.verify(first, frame)
    }
}

impl<D: Driver<C = Block>> Shelf for archive::Store<D> {
    ghost looks = { DriverLooks D.Driver.ok D.Driver.state D.Driver.fault };

    fn has(&mut self, first: u32, frame: &[u8]) -> bool {
        self.verify(first, frame) == Ok(true)
    }
}

// How many of the frames that arrived, but for those to a group, stand on a shelf, from where one ends to the next.
pub fn count_stored<S: Shelf>(arrivals: &[u8], shelf: &mut S) -> usize
    ensures { Audited S.Shelf.looks shelf.old (frames_of arrivals.now) result shelf.new }
{
    let mut first = 0u32;
    let mut found = 0usize;
    for frame in frames_in(arrivals) {
        if !is_group(frame) && shelf.has(first, frame) {
            found = found.saturating_add(1);
            first = first.saturating_add(blocks_for(frame));
        }
    }
    found
}

// How many blocks the record of a frame takes.
fn blocks_for(frame: &[u8]) -> u32
    ensures { result ≡ count_of (record_blocks frame.now) }
{
    record_of(frame).map_or(0, |record| record.count)
}

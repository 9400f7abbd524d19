// A store of frames on a disk.
ghost use Rattle.std.specs.Prelude.{◌≡◌};

use block::Disk;

// Records one after the other from block 0; `next` is the first block that is free. Beside archive's store, since a
// bare disk fails only past its reach: what the two share is `fitted`, `put_blocks` and `has_blocks`, and each call is
// a few lines.
#[derive(Drop)]
pub struct Store {
    pub(crate) disk: Disk,
    pub(crate) next: u32,
}

impl Store {
    // How many blocks the records take.
    pub fn used(&self) -> u32
        ensures { result ≡ self.now.next }
    {
        self.next
    }
}

#[derive(Clone, Copy, PartialEq, Eq, Debug)]
pub enum StoreError {
    // longer than any frame
    TooLong,
    // too few blocks are free
    Full,
    // what was read back is not what was written
    Damaged,
}

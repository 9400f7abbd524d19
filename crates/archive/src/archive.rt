// A store of frames on a disk.
ghost use Rattle.std.specs.Prelude.{◌≡◌};

use block::Block;
use driver::Driver;
use exchange::Silence;
use model::Refusal;
use std::fmt;

// Records one after the other from block 0, on the disk of a driver; `next` is the first block that is free. Beside the
// store of a bare disk, which fails only past its reach: what the two share stands in the crate `store`.
#[derive(Drop)]
pub struct Store<D: Driver<C = Block>> {
    pub(crate) driver: D,
    pub(crate) next: u32,
}

impl<D: Driver<C = Block>> Store<D> {
    // How many blocks the records take.
    pub fn used(&self) -> u32
        ensures { result ≡ self.now.next }
    {
        self.next
    }
}

// Why a frame was not stored, or not looked for.
#[derive(Clone, Copy, PartialEq, Eq, Debug)]
pub enum StoreError {
    // longer than any frame
    TooLong,
    // too few blocks are free
    Full,
    // the driver has requests of someone else waiting
    Busy,
    // the driver refused a request
    Refused(Refusal),
    // a request was not answered, and may still wait
    Unanswered,
    // what was read back is not what was written
    Damaged,
}

impl From<Silence> for StoreError {
    ghost use Rattle.std.specs.Prelude.{◌≡◌};
    ghost use Rattle.archive.specs.Errors.{from_silence};

    ghost from_gives = { λ silence error. error ≡ from_silence silence };

    fn from(silence: Silence) -> StoreError {
        match silence {
            Silence::Refused(refusal) => StoreError::Refused(refusal),
            Silence::Unanswered => StoreError::Unanswered,
        }
    }
}

impl From<store::StoreError> for StoreError {
    ghost use Rattle.std.specs.Prelude.{◌≡◌};
    ghost use Rattle.archive.specs.Errors.{from_store};

    ghost from_gives = { λ below error. error ≡ from_store below };

    fn from(below: store::StoreError) -> StoreError {
        match below {
            store::StoreError::TooLong => StoreError::TooLong,
            store::StoreError::Full => StoreError::Full,
            store::StoreError::Damaged => StoreError::Damaged,
        }
    }
}

impl fmt::Display for StoreError {
    ghost use Rattle.std.specs.Prelude.{Some};
    ghost use Rattle.archive.specs.Errors.{text_of};

    ghost output = { λ error. Some (text_of error) };

    fn fmt<W: fmt::Write>(&self, f: &mut fmt::Formatter<W>) -> fmt::Result {
        f.write_str(match self {
            StoreError::TooLong => "longer than any frame",
            StoreError::Full => "the disk is full",
            StoreError::Busy => "the disk's driver has other requests waiting",
            StoreError::Refused(_) => "the disk's driver refused",
            StoreError::Unanswered => "the disk's driver did not answer",
            StoreError::Damaged => "it did not read back",
        })
    }
}

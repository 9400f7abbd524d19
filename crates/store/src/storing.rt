// Frames into a store, and back.
ghost use Rattle.std.specs.Prelude.{◌≡◌, ◌+◌, true, length, is_ok, if◌then◌else◌, Decides};
ghost use Rattle.block.specs.Memories.{memory_of};
ghost use Rattle.store.specs.Records.{blocks_for};
ghost use Rattle.store.specs.Stores.{bytes_of, verdict, with_record, Holds, Keeps};

use crate::medium::{has_blocks, put_blocks};
use crate::records::fitted;
use crate::store::{Store, StoreError};
use block::Disk;
use device::Device;

impl Store {
    // An empty store on a disk, whatever the disk holds.
    pub fn new(disk: Disk) -> Store
        ensures bytes { bytes_of result ≡ memory_of disk }
        ensures next { result.next ≡ 0 }
    {
        Store { disk, next: 0 }
    }

    // Adds the record of a frame, and says in which block it begins.
    pub fn append(&mut self, frame: &[u8]) -> Result<u32, StoreError>
        ensures verdict { result ≡ verdict self.old (length frame.now) }
        ensures bytes { bytes_of self.new ≡ (if is_ok result then with_record self.old.next frame.now (bytes_of self.old) else bytes_of self.old) }
        ensures next { self.new.next ≡ (if is_ok result then self.old.next + blocks_for (length frame.now) else self.old.next) }
        ensures added { is_ok result ≡ true → Holds self.new self.old.next frame.now }
        ensures keeps { Keeps self.old self.new }
    {
        let first = self.next;
        let record = fitted(frame, first, self.disk.reaches())?;
        put_blocks(&mut self.disk, first, record.blocks())?;
        self.next = first + record.count;
        Ok(first)
    }

    // Reads the blocks of a frame back, and says whether its record stands there.
    pub fn verify(&mut self, first: u32, frame: &[u8]) -> bool
        ensures bytes { bytes_of self.new ≡ bytes_of self.old }
        ensures next { self.new.next ≡ self.old.next }
        ensures found { Decides result (Holds self.old first frame.now) }
    {
        let Ok(record) = fitted(frame, first, self.disk.reaches()) else {
            return false;
        };
        has_blocks(&mut self.disk, first, record.blocks()).unwrap_or(false)
    }

    // Adds the record of a frame, and reads it back; it is never found damaged.
    pub fn save(&mut self, frame: &[u8]) -> Result<u32, StoreError>
        ensures verdict { result ≡ verdict self.old (length frame.now) }
        ensures bytes { bytes_of self.new ≡ (if is_ok result then with_record self.old.next frame.now (bytes_of self.old) else bytes_of self.old) }
        ensures next { self.new.next ≡ (if is_ok result then self.old.next + blocks_for (length frame.now) else self.old.next) }
        ensures keeps { Keeps self.old self.new }
    {
        let first = self.append(frame)?;
        if self.verify(first, frame) {
            Ok(first)
        } else {
            Err(StoreError::Damaged)
        }
    }
}

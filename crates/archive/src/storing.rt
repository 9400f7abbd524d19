// Frames into a store, and back.
ghost use Rattle.std.specs.Prelude.{◌≡◌, ◌*◌, length, Err, ◌≢◌};
ghost use Rattle.archive.specs.declared.archive.StoreError.TheVariants.{Damaged};
ghost use Rattle.archive.specs.Disks.{disk};
ghost use Rattle.archive.specs.Stores.{Saved, Keeps, Verified};

use crate::archive::{Store, StoreError};
use crate::blocks::Through;
use crate::rooms::room_for;
use block::Block;
use driver::Driver;
use store::{has_blocks, put_blocks};

impl<D: Driver<C = Block>> Store<D> {
    // An empty store on the disk of a driver, whatever the disk holds.
    pub fn new(driver: D) -> Store<D>
        ensures driver { result.driver ≡ driver }
        ensures next { result.next ≡ 0 }
    {
        Store { driver, next: 0 }
    }

    // The driver, as it is.
    pub fn into_driver(self) -> D
        ensures { result ≡ self.driver }
    {
        self.driver
    }

    // Adds the record of a frame behind those that stand there, reading back each block, and says in which block
    // it begins.
    pub fn save(&mut self, frame: &[u8]) -> Result<u32, StoreError>
        ensures fine { D.Driver.ok self.old.driver → D.Driver.ok self.new.driver }
        ensures saved { D.Driver.ok self.old.driver → Saved (D.Driver.state self.old.driver) self.old.next frame.now (D.Driver.fault self.new.driver) result (D.Driver.state self.new.driver) self.new.next }
        ensures keeps { D.Driver.ok self.old.driver → Keeps self.old.next (D.Driver.state self.old.driver) (D.Driver.state self.new.driver) }
        ensures undamaged { D.Driver.ok self.old.driver → length (disk (D.Driver.state self.old.driver)) ≡ (D.Driver.state self.old.driver).reach * 512 → result ≢ Err Damaged }
    {
        let first = self.next;
        let record = room_for(&self.driver, first, frame)?;
        let driver = &mut self.driver;
        put_blocks(&mut Through { driver }, first, record.blocks())?;
        self.next = first + record.count;
        Ok(first)
    }

    // Reads the blocks of a frame back, and says whether its record stands there.
    pub fn verify(&mut self, first: u32, frame: &[u8]) -> Result<bool, StoreError>
        ensures fine { D.Driver.ok self.old.driver → D.Driver.ok self.new.driver }
        ensures verified { D.Driver.ok self.old.driver → Verified (D.Driver.state self.old.driver) first frame.now (D.Driver.fault self.new.driver) result (D.Driver.state self.new.driver) }
        ensures next { self.new.next ≡ self.old.next }
    {
        let record = room_for(&self.driver, first, frame)?;
        let driver = &mut self.driver;
        has_blocks(&mut Through { driver }, first, record.blocks())
    }
}

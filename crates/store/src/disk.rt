// A bare disk as a medium: nothing fails but a block past its reach.
ghost use Rattle.std.specs.Prelude.{◌≡◌};
ghost use Rattle.block.specs.Blocks.{kind_of};
ghost use Rattle.store.specs.Disks.{DiskPuts, DiskLooks};

use crate::medium::Medium;
use crate::records::BLOCK;
use crate::store::StoreError;
use block::{BlockOp, Disk};
use device::{Command, Device};

// The write cache is off.
const LEVEL: u32 = 0;

impl Medium for Disk {
    type Error = StoreError;

    ghost puts = { DiskPuts };

    ghost looks = { DiskLooks };

    fn put_block(&mut self, address: u32, block: &[u8; BLOCK]) -> Result<(), StoreError> {
        if address >= self.reaches() {
            return Err(StoreError::Full);
        }
        let mut answer = [0u8; BLOCK];
        let _ = self.perform(&command(BlockOp::Write, address, block), &mut answer);
        Ok(())
    }

    fn has_block(&mut self, address: u32, block: &[u8; BLOCK]) -> Result<bool, StoreError> {
        if address >= self.reaches() {
            return Ok(false);
        }
        let mut answer = [0u8; BLOCK];
        let _ = self.perform(&command(BlockOp::Read, address, &[]), &mut answer);
        Ok(&answer == block)
    }
}

fn command(op: BlockOp, address: u32, payload: &[u8]) -> Command<'_>
    ensures level { result.level ≡ 0 }
    ensures kind { result.kind ≡ kind_of op }
    ensures address { result.address ≡ address }
    ensures payload { result.payload.now ≡ payload.now }
{
    Command {
        level: LEVEL,
        kind: u8::from(op),
        address,
        payload,
    }
}

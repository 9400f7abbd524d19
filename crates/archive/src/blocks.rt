// Whole blocks on the disk of a driver.
ghost use Rattle.std.specs.Prelude.{◌≡◌, ◌<◌, []};
ghost use Rattle.archive.specs.Disks.{Wrote, PutsOne, LooksAtOne, header_of};

use crate::archive::StoreError;
use block::{Block, BlockOp};
use driver::{Driver, Header};
use exchange::ask;
use store::{BLOCK, Medium};

// A driver as what keeps blocks: each that is written is read back.
#[derive(Drop)]
pub(crate) struct Through<'a, D: Driver<C = Block>> {
    pub(crate) driver: &'a mut D,
}

impl<'a, D: Driver<C = Block>> Medium for Through<'a, D> {
    type Error = StoreError;

    ghost puts = { PutsOne (λ m. m.driver.ghost_name) (λ m. D.Driver.ok m.driver.now) (λ m. D.Driver.state m.driver.now) (λ m. D.Driver.fault m.driver.now) };

    ghost looks = { LooksAtOne (λ m. m.driver.ghost_name) (λ m. D.Driver.ok m.driver.now) (λ m. D.Driver.state m.driver.now) (λ m. D.Driver.fault m.driver.now) };

    fn put_block(&mut self, address: u32, block: &[u8; BLOCK]) -> Result<(), StoreError> {
        write_block(self.driver, address, block)?;
        if self.has_block(address, block)? {
            Ok(())
        } else {
            Err(StoreError::Damaged)
        }
    }

    fn has_block(&mut self, address: u32, block: &[u8; BLOCK]) -> Result<bool, StoreError> {
        let mut answer = [0u8; BLOCK];
        let length = ask(
            self.driver,
            header(BlockOp::Read, address),
            &[],
            &mut answer,
        )?;
        Ok(length >= BLOCK && &answer == block)
    }
}

fn write_block<D: Driver<C = Block>>(
    driver: &mut D,
    address: u32,
    block: &[u8; BLOCK],
) -> Result<(), StoreError>
    ensures fine { D.Driver.ok driver.old → D.Driver.ok driver.new }
    ensures block { D.Driver.ok driver.old → (D.Driver.state driver.old).waiting ≡ [] → address < (D.Driver.state driver.old).reach → Wrote (D.Driver.state driver.old) address block.now (D.Driver.fault driver.new) result (D.Driver.state driver.new) }
{
    let mut answer = [0u8; BLOCK];
    ask(driver, header(BlockOp::Write, address), block, &mut answer)?;
    Ok(())
}

fn header(op: BlockOp, address: u32) -> Header
    ensures { result ≡ header_of op address }
{
    Header {
        tag: address,
        kind: u8::from(op),
        address,
    }
}

// Room for a frame on a disk.
ghost use Rattle.std.specs.Prelude.{◌+◌, ◌^◌, ◌<◌, IfOk};
ghost use Rattle.archive.specs.Rooms.{Roomed};

use crate::archive::StoreError;
use block::Block;
use driver::Driver;
use store::{Record, fitted};

// The record of a frame, if it fits from a block on and the driver is free.
pub(crate) fn room_for<D: Driver<C = Block>>(
    driver: &D,
    first: u32,
    frame: &[u8],
) -> Result<Record, StoreError>
    ensures safe { IfOk result (λ x. first + x.count < 2 ^ 32) }
    ensures room { D.Driver.ok driver.now → Roomed (D.Driver.state driver.now) first frame.now result }
{
    let record = fitted(frame, first, driver.reach())?;
    if driver.waiting() > 0 {
        return Err(StoreError::Busy);
    }
    Ok(record)
}

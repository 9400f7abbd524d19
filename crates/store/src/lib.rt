// A store of frames: records of whole blocks on a disk.
#![tactic(auto)]

mod disk;
pub mod medium;
mod records;
mod store;
mod storing;

pub use medium::{Medium, has_blocks, put_blocks};
pub use records::{BLOCK, LONGEST_FRAME, Record, fitted, record_of};
pub use store::{Store, StoreError};

// Block devices: the class, and a disk over memory.
#![tactic(auto)]

mod class;
mod disk;
pub mod memory;
pub mod op;

pub use class::Block;
pub use disk::{BLOCK, Disk, LentDisk};
pub use memory::Memory;
pub use op::BlockOp;

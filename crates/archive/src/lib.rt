// A store of frames: records of whole blocks on the disk of any block driver.
#![tactic(auto)]

pub mod archive;
mod blocks;
mod rooms;
mod storing;

pub use archive::{Store, StoreError};

// The drivers of a gateway: a fault layer over a base driver over each of its devices.
#![tactic(auto)]

pub mod failure;
mod over;

pub use failure::{Failure, planned};
pub use over::{
    DISK_BLOCKS, DiskPile, SpeakerPile, TONE, WirePile, disk_pile, into_disk, speaker_pile,
    wire_pile,
};

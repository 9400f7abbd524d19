// Network devices: the class, and a wire.
#![tactic(auto)]

mod class;
pub mod op;
mod receiving;
mod sending;
mod wire;

pub use arrivals::{
    Frames, LONGEST_FRAME, SHORTEST_FRAME, Survey, count_frames, frames_in, is_group, next_arrival,
    next_frame, split_frame,
};
pub use class::Network;
pub use op::NetworkOp;
pub use wire::Wire;

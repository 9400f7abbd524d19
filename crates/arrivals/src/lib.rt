// The frames of the arrivals at a wire.
#![tactic(auto)]

mod frames;
mod runs;
mod survey;
mod surveying;

pub use frames::{LONGEST_FRAME, SHORTEST_FRAME, is_group, next_arrival, next_frame, split_frame};
pub use runs::{Frames, frames_in};
pub use survey::Survey;
pub use surveying::count_frames;

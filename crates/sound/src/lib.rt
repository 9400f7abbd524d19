// Sound devices: the class, and a speaker.
#![tactic(auto)]

mod class;
pub mod op;
mod speaker;

pub use class::Sound;
pub use op::SoundOp;
pub use speaker::Speaker;

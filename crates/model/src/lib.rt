// What every layer speaks of: classes of devices, and why a call is refused.
#![tactic(auto)]

mod class;
mod codes;
pub mod header;
pub mod kind;
pub mod refusal;
pub mod setting;

pub use class::{ANSWER_LIMIT, Class};
pub use header::Header;
pub use kind::{Operation, UnknownKind};
pub use refusal::{Fault, Refusal};
pub use setting::SettingRange;

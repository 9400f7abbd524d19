// The kinds of entries: which names are the same, and what content each has by default.
#![tactic(auto)]

mod kind;
mod membership;
mod setting;

pub use kind::EntryKind;
pub use membership::Membership;
pub use setting::Setting;

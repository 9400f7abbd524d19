// A burst of frames through an intake, over drivers of any make, told line by line.
#![tactic(auto)]

mod audit;
mod counting;
mod drivers;
mod lines;
mod taking;
pub mod tally;

pub use audit::{Shelf, count_stored};
pub use drivers::{mend, report_counters, report_speaker, report_wire, start, start_as};
pub use lines::report_burst;
pub use taking::{take_burst, take_frames};
pub use tally::Tally;

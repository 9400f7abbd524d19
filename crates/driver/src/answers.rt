// What a client passes to a driver and gets back.
pub use model::Header;

// What collect answers where it is not refused.
#[derive(Clone, Copy, PartialEq, Eq, Debug)]
pub enum Collected {
    // the oldest request was performed, and its answer stands in the first `length` bytes of the buffer
    Done { tag: u32, length: usize },
    // the oldest request is gone, performed or not
    Lost { tag: u32 },
    // nothing waits
    Idle,
    // the oldest request still waits
    NotYet,
}

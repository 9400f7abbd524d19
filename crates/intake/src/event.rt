// What becomes of frames.
use archive::StoreError;
pub use exchange::Silence;

// What became of the next frame: five ends, each with what the caller tells of it, so neither an Option nor a Result.
#[derive(Clone, Copy, PartialEq, Eq, Debug)]
pub enum Event {
    // no frame arrives any more
    Ended,
    // nothing could be received
    Silent(Silence),
    NotStored {
        size: usize,
        error: StoreError,
    },
    // stored from a block on, and acknowledged
    Stored {
        first: u32,
        size: usize,
    },
    // stored from a block on, but the acknowledgement was not sent for certain
    Unacknowledged {
        first: u32,
        size: usize,
        silence: Silence,
    },
}

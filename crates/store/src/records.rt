// Frames as records of whole blocks.
ghost use Rattle.std.specs.Prelude.{◌≡◌, ◌<◌, ◌≤◌, length, MatchOption};
ghost use Rattle.store.specs.Records.{blocks_of, blocks_for};
ghost use Rattle.store.specs.Blocks.{record_blocks, fitted};

use crate::store::StoreError;
pub use arrivals::LONGEST_FRAME;
pub use block::BLOCK;

// The bytes of the longest record: its length and frame take three blocks.
const RECORD: usize = 3 * BLOCK;

// The record of a frame: its blocks, with zeros behind them, and how many they are. An array with a count, in fixed
// memory by a rule: the zeros come with it, and `blocks` gives those that count.
#[derive(Clone, Copy, PartialEq, Eq, Debug)]
pub struct Record {
    pub count: u32,
    pub bytes: [u8; RECORD],
}

impl Record {
    pub fn blocks(&self) -> &[[u8; BLOCK]]
        ensures { result.now ≡ blocks_of self.now.count self.now.bytes }
    {
        let (blocks, _) = self.bytes.as_chunks();
        &blocks[..blocks.len().min(self.count as usize)]
    }
}

// How many blocks the record of a frame takes; none for what is longer than any frame.
fn blocks_for(frame: &[u8]) -> Option<u32>
    ensures { MatchOption result (1514 < length frame.now) (λ count. (length frame.now ≤ 1514) × (count ≡ blocks_for (length frame.now))) }
{
    if frame.len() > LONGEST_FRAME {
        return None;
    }
    Some((2 + frame.len()).div_ceil(BLOCK) as u32)
}

// The record of a frame: its length in two bytes, the higher first, and then the frame; none for what is longer than
// any frame.
pub fn record_of(frame: &[u8]) -> Option<Record>
    ensures { result ≡ record_blocks frame.now }
{
    let count = blocks_for(frame)?;
    let size = frame.len();
    let mut bytes = [0u8; RECORD];
    let [high, low] = (size as u16).to_be_bytes();
    // one by one: with `copy_from_slice` of both the proof did not close
    bytes[0] = high;
    bytes[1] = low;
    bytes[2..2 + size].copy_from_slice(frame);
    Some(Record { count, bytes })
}

// The record of a frame that a disk with this many blocks has room for, from a block on.
pub fn fitted(frame: &[u8], first: u32, reach: u32) -> Result<Record, StoreError>
    ensures { result ≡ fitted frame.now first reach }
{
    // the room is looked for before the record is made: no byte of a frame that does not fit is copied
    let count = blocks_for(frame).ok_or(StoreError::TooLong)?;
    if first > reach || count > reach - first {
        return Err(StoreError::Full);
    }
    record_of(frame).ok_or(StoreError::TooLong)
}

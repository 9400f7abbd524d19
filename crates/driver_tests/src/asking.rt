// Requests of a client.
use driver::{Collected, Driver, Header};
use model::{ANSWER_LIMIT, Refusal};

pub(crate) const TAG: u32 = 7;

pub(crate) fn submit<D: Driver>(
    driver: &mut D,
    kind: u8,
    address: u32,
    payload: &[u8],
) -> Result<(), Refusal> {
    let tag = TAG;
    driver.submit(Header { tag, kind, address }, payload)
}

// Collects into a buffer of so many bytes.
pub(crate) fn collect<D: Driver>(driver: &mut D, room: usize) -> Result<Collected, Refusal> {
    let mut buffer = [0u8; ANSWER_LIMIT];
    driver.collect(&mut buffer[..room.min(ANSWER_LIMIT)])
}

// What a device is asked to do.

// A request as a device gets it: at a level, with no tag.
#[derive(Clone, Copy, PartialEq, Eq, Debug)]
pub struct Command<'a> {
    pub level: u32,
    // a number, by a rule: a client may pass any
    pub kind: u8,
    pub address: u32,
    pub payload: &'a [u8],
}

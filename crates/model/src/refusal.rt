// Why a call was refused.

// The pair of numbers of a failure: the layer that failed, and the place in it.
#[derive(Clone, Copy, PartialEq, Eq, Debug)]
pub struct Fault {
    pub layer: u32,
    pub place: u32,
}

#[derive(Clone, Copy, PartialEq, Eq, Debug)]
pub enum Refusal {
    Failed(Fault),
    Setting,
    Value,
    Name,
    Kind,
    Address,
    Payload,
    Answer,
    Roll,
    Full,
    Room,
    Phase,
    // with the number of items left to hand over
    Unfinished(u32),
}

// What a fault layer holds.
use model::Fault;

// How the chosen call fails.
#[derive(Clone, Copy, PartialEq, Eq, Debug)]
pub enum Way {
    // it is not made below
    Unmade,
    // it is made below, and its answer is dropped
    Dropped,
}

// The failure of a call: how it fails, and the pair that it answers.
#[derive(Clone, Copy, PartialEq, Eq, Debug)]
pub struct Failure {
    pub(crate) way: Way,
    pub(crate) fault: Fault,
}

// Which call is to fail, and how.
#[derive(Clone, Copy, PartialEq, Eq, Debug)]
pub struct Plan {
    // how many calls have got a number
    pub(crate) made: u32,
    // the number of the call that fails
    pub(crate) number: u32,
    pub(crate) way: Way,
}

// A driver under a layer that makes one call fail.
#[derive(Drop)]
pub struct Faulty<D> {
    // the pair that the layer answers while it is down
    pub(crate) down: Option<Fault>,
    pub(crate) plan: Plan,
    pub(crate) below: D,
}

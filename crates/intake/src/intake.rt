// The drivers that an intake works with.
use archive::Store;
use block::Block;
use driver::Driver;
use network::Network;
use sound::Sound;

// A wire that frames come from, a store that they go to, and a speaker that announces them.
#[derive(Drop)]
pub struct Intake<N: Driver<C = Network>, B: Driver<C = Block>, S: Driver<C = Sound>> {
    pub(crate) wire: N,
    pub(crate) store: Store<B>,
    pub(crate) speaker: S,
}

// What became of the frames of a burst.
#[derive(Clone, Copy, PartialEq, Eq, Debug, Default)]
pub struct Tally {
    pub stored: usize,
    pub refused: usize,
    // of the frames that were stored, in all
    pub bytes: usize,
}

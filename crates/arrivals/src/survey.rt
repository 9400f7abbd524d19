// What a run of arrivals holds: its frames, how many of them go to a group, and the bytes that all of
// them take with their lengths.
#[derive(Clone, Copy, PartialEq, Eq, Debug, Default)]
pub struct Survey {
    pub frames: usize,
    pub groups: usize,
    pub used: usize,
}

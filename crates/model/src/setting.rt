// What a setting may be: the value it has at first, and the greatest it may have.
#[derive(Clone, Copy, PartialEq, Eq, Debug)]
pub struct SettingRange {
    pub initial: u32,
    pub greatest: u32,
}

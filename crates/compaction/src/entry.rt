// A name, and the content that it is given.
#[derive(Clone, Copy, PartialEq, Eq, Debug, Default)]
pub struct Entry {
    pub name: u64,
    pub content: u64,
}

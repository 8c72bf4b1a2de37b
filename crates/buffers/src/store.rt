// A store that waits: where it goes and what it brings.
#[derive(Clone, Copy, PartialEq, Eq, Debug)]
pub struct Store {
    pub cell: usize,
    pub value: u32,
}

// What a judgement says.

// Whether the run could have happened one action after another.
#[derive(Clone, Copy, PartialEq, Eq, Debug)]
pub enum Word {
    // the list is the order
    Sequential,
    // the list is a ring of actions, each of which happens before the next, and the last before the first
    Violation,
}

#[derive(Clone, Copy, PartialEq, Eq, Debug)]
pub struct Verdict {
    pub word: Word,
    // how many names the list begins with
    pub entries: usize,
    // how many threads delayed a store of their own
    pub delayed: u32,
}

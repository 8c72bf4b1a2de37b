// How an action is named, and where a load has its value from.

// An action, by its thread and its position among that thread's actions, counted from 0.
#[derive(Clone, Copy, PartialEq, Eq, Debug, Default)]
pub struct Name {
    pub thread: usize,
    pub position: usize,
}

// Where a value in memory is from: a store's action, or the start, where there is none.
pub type Source = Option<Name>;

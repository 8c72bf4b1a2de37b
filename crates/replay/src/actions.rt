// An accepted run of an instruction, as it is kept.
use super::names::Source;

// the most actions that a run has
pub(crate) const MOST: usize = 256;

// how many cells there are, as the definitions say; one constant over crates would be no plainer
pub(crate) const CELLS: usize = 16;

// What an action does to memory.
#[derive(Clone, Copy)]
pub enum Access {
    Nothing,
    Stores { cell: usize },
    Loads { cell: usize, source: Source },
}

#[derive(Clone, Copy)]
pub struct Action {
    // the number of the instruction
    pub line: usize,
    // the value loaded, stored, computed or asserted; 0 for a fence
    pub value: u32,
    pub access: Access,
    // what a store overwrote in memory when it was drained; nothing as long as it waits
    pub over: Option<Source>,
}

// A memory cell: what it holds, and where that is from.
#[derive(Clone, Copy)]
pub struct Cell {
    pub value: u32,
    pub last: Source,
}

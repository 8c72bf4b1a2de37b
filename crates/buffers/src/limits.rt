// How much a store buffer holds.
pub(crate) const THREADS: usize = 8;

pub(crate) const CELLS: usize = 16;

// the most stores of one thread that wait
pub(crate) const MOST: usize = 16;

// The moves of a run, as they are offered. Any numbers may arrive.
#[derive(Clone, Copy, PartialEq, Eq, Debug)]
pub enum Move {
    // a thread runs the instruction of that number
    Run { thread: usize, instruction: usize },
    // a thread's oldest waiting store to that cell goes to memory
    Drain { thread: usize, cell: usize },
}

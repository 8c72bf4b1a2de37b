// The rules of the three plain kinds. They hold the same waiting lists and differ in this alone.
ghost use Rattle.std.specs.Prelude.{◌≡◌};
ghost use Rattle.buffers.specs.Kinds.{direct, per_cell, queue};
ghost use Rattle.buffers.specs.Laws.{Lawful, Rules};
ghost use Rattle.buffers.specs.Waits.{lists_in};
ghost use Rattle.std.proofs.Common.{rules};

use super::limits::THREADS;
use super::waiting::Waiting;

pub trait Discipline: Default {
    ghost allows: { Rules };

    // Whether the thread is free to step. Two kinds ask the same, each for itself: a body given here would have to keep any rules.
    fn steps(&self, waiting: &Waiting, thread: usize) -> bool
        ensures { result ≡ allows.steps (lists_in waiting.now) thread };

    // Whether the thread's oldest store to a cell is free to drain.
    fn drains(&self, waiting: &Waiting, thread: usize, cell: usize) -> bool
        ensures { result ≡ allows.drains (lists_in waiting.now) thread cell };

    ghost lawful: { Lawful allows };
}

// A thread may step once nothing waits in any thread; any waiting store may drain.
#[derive(Clone, Copy, Default)]
pub struct DirectRules;

// Any thread may step; a thread's oldest store may drain.
#[derive(Clone, Copy, Default)]
pub struct QueueRules;

// Any thread may step; the oldest store to any cell may drain.
#[derive(Clone, Copy, Default)]
pub struct PerCellRules;

impl Discipline for DirectRules {
    ghost allows = { direct };

    ghost lawful = { Prim.search rules };

    fn steps(&self, waiting: &Waiting, thread: usize) -> bool {
        thread < THREADS && waiting.is_empty()
    }

    fn drains(&self, waiting: &Waiting, thread: usize, cell: usize) -> bool {
        // as over per-cell
        PerCellRules.drains(waiting, thread, cell)
    }
}

impl Discipline for QueueRules {
    ghost allows = { queue };

    ghost lawful = { Prim.search rules };

    fn steps(&self, _waiting: &Waiting, thread: usize) -> bool {
        thread < THREADS
    }

    fn drains(&self, waiting: &Waiting, thread: usize, cell: usize) -> bool {
        waiting.oldest_is_to(thread, cell)
    }
}

impl Discipline for PerCellRules {
    ghost allows = { per_cell };

    ghost lawful = { Prim.search rules };

    fn steps(&self, _waiting: &Waiting, thread: usize) -> bool {
        thread < THREADS
    }

    fn drains(&self, waiting: &Waiting, thread: usize, cell: usize) -> bool {
        waiting.waits_to(thread, cell)
    }
}

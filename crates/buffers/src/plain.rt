// The plain kinds: waiting lists under one discipline or another.
ghost use Rattle.std.specs.Prelude.{◌≡◌, IfOk};
ghost use Rattle.buffers.specs.Calls.{no_stores};
ghost use Rattle.buffers.specs.Waits.{lists_in};
ghost use Rattle.std.proofs.Common.{rules as std_rules};

use super::disciplines::{DirectRules, Discipline, PerCellRules, QueueRules};
use super::meaning::StoreBuffer;
use super::waiting::Waiting;
use refusal::Refusal;
use std::alloc::{AllocError, Global};

#[derive(Drop)]
pub struct Plain<D> {
    waiting: Waiting,
    discipline: D,
}

pub type Direct = Plain<DirectRules>;

pub type Queue = Plain<QueueRules>;

pub type PerCell = Plain<PerCellRules>;

impl<D: Discipline + Drop> Plain<D> {
    // A buffer in which nothing waits. This is the one call that may find no memory.
    pub fn new(heap: Global) -> Result<Plain<D>, AllocError>
        ensures { IfOk result (λ b. lists_in b.waiting ≡ no_stores) }
    {
        let waiting = Waiting::new(heap)?;
        Ok(Plain {
            waiting,
            discipline: D::default(),
        })
    }
}

impl<D: Discipline> StoreBuffer for Plain<D> {
    ghost lists = { λ b. lists_in b.waiting };

    ghost rules = { λ _. D.Discipline.allows };

    ghost good = { λ b. b.waiting.good };

    ghost lawful = { Prim.search std_rules };

    fn put(&mut self, thread: usize, cell: usize, value: u32) -> Result<(), Refusal> {
        self.waiting.put(thread, cell, value)
    }

    fn newest(&self, thread: usize, cell: usize) -> Option<u32> {
        self.waiting.newest(thread, cell)
    }

    fn take(&mut self, thread: usize, cell: usize) -> Result<u32, Refusal> {
        if !self.discipline.drains(&self.waiting, thread, cell) {
            return Err(Refusal::DrainNotFree);
        }
        self.waiting.take(thread, cell).ok_or(Refusal::DrainNotFree)
    }

    fn free_to_step(&self, thread: usize) -> bool {
        self.discipline.steps(&self.waiting, thread)
    }

    fn drain_free(&self, thread: usize, cell: usize) -> bool {
        self.discipline.drains(&self.waiting, thread, cell)
    }

    fn waiting(&self, thread: usize) -> usize {
        self.waiting.count(thread)
    }

    fn clear(&mut self) {
        self.waiting.clear();
    }
}

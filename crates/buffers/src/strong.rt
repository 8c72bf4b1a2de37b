// Strong cells over any kind: a thread does not step while a store of its own waits for one of them.
ghost use Rattle.std.specs.Prelude.{◌≡◌};
ghost use Rattle.buffers.specs.Kinds.{has_chosen, strong};
ghost use Rattle.buffers.specs.Lists.{list_of};
ghost use Rattle.buffers.specs.KindLaws.{strong_lawful};
ghost use Rattle.std.proofs.Common.{rules as std_rules};

use super::limits::CELLS;
use super::meaning::StoreBuffer;
use refusal::Refusal;

#[derive(Drop)]
pub struct StrongCells<B> {
    below: B,
    // which of the sixteen cells are strong
    chosen: [bool; CELLS],
}

impl<B: StoreBuffer> StrongCells<B> {
    // Lays the chosen cells over a kind. What waits there goes on waiting.
    pub fn new(below: B, chosen: [bool; CELLS]) -> StrongCells<B>
        ensures below { result.below ≡ below }
        ensures chosen { result.chosen ≡ chosen }
    {
        StrongCells { below, chosen }
    }

    // Whether a store of the thread waits for a strong cell.
    fn strong_waits(&self, thread: usize) -> bool
        ensures { result ≡ has_chosen self.now.chosen (list_of (B.StoreBuffer.lists self.now.below) thread) }
    {
        let mut cells = self.chosen.iter().enumerate();
        cells.any(|(cell, chosen)| *chosen && self.below.newest(thread, cell).is_some())
    }
}

impl<B: StoreBuffer> StoreBuffer for StrongCells<B> {
    ghost lists = { λ b. B.StoreBuffer.lists b.below };

    ghost rules = { λ b. strong b.chosen (B.StoreBuffer.rules b.below) };

    ghost good = { Prim.search std_rules };

    ghost lawful = { λ b. strong_lawful b.chosen (B.StoreBuffer.rules b.below) (B.StoreBuffer.lawful b.below) };

    fn put(&mut self, thread: usize, cell: usize, value: u32) -> Result<(), Refusal> {
        self.below.put(thread, cell, value)
    }

    fn newest(&self, thread: usize, cell: usize) -> Option<u32> {
        self.below.newest(thread, cell)
    }

    fn take(&mut self, thread: usize, cell: usize) -> Result<u32, Refusal> {
        self.below.take(thread, cell)
    }

    fn free_to_step(&self, thread: usize) -> bool {
        self.below.free_to_step(thread) && !self.strong_waits(thread)
    }

    fn drain_free(&self, thread: usize, cell: usize) -> bool {
        self.below.drain_free(thread, cell)
    }

    fn waiting(&self, thread: usize) -> usize {
        self.below.waiting(thread)
    }

    fn clear(&mut self) {
        self.below.clear();
    }
}

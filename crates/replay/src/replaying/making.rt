// Making a replay, and starting over.
ghost use Rattle.std.specs.Prelude.{IfOk};
ghost use Rattle.program.specs.Programs.{lines_of};
ghost use Rattle.replay.specs.Standings.{Fresh, standing};

use super::super::state::State;
use super::Replay;
use buffers::StoreBuffer;
use program::Program;
use std::alloc::{AllocError, Global};

impl<B: StoreBuffer> Replay<B> {
    // A replay at its start, over a buffer that is cleared for it. This is the one call that may find no memory.
    pub fn new(heap: Global, program: Program, mut buffer: B) -> Result<Replay<B>, AllocError>
    where
        B: Drop,
        ensures { IfOk result (λ replay. Fresh (B.StoreBuffer.rules buffer) (lines_of program) (standing B.StoreBuffer replay)) }
    {
        let state = State::new(heap)?;
        buffer.clear();
        Ok(Replay {
            program,
            buffer,
            state,
        })
    }

    // Goes back to the start: labels, registers and cells are 0, and there is no action and no waiting store.
    pub fn start_over(&mut self)
        ensures { let before = standing B.StoreBuffer self.old in Fresh before.rules before.lines (standing B.StoreBuffer self.new) }
    {
        self.buffer.clear();
        self.state.clear();
    }
}

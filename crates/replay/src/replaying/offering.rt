// Offering moves: runs of instructions, and drains.
ghost use Rattle.std.specs.Prelude.{◌≡◌, ℕ, None};
ghost use Rattle.program.specs.declared.forms.Instruction.TheVariants.{Assert, Fence, Load, Store};
ghost use Rattle.ledger.specs.declared.moves.Move.TheVariants.{Drain, Run};
ghost use Rattle.replay.specs.Offers.{ActedAlone};
ghost use Rattle.replay.specs.Standings.{ActedOn, Moved, standing};

use super::super::actions::{Access, Action, CELLS};
use super::super::names::Name;
use super::super::turn::Turn;
use super::Replay;
use buffers::StoreBuffer;
use ledger::Move;
use program::{Instruction, Operand};
use refusal::Refusal;

impl Action {
    // An action that is not drained, of the instruction of that number.
    fn new(line: usize, value: u32, access: Access) -> Action
        ensures { result ≡ record { line = line; value = value; access = access; over = None } }
    {
        Action {
            line,
            value,
            access,
            over: None,
        }
    }
}

impl<B: StoreBuffer> Replay<B> {
    // Offers a move, and answers the value loaded, stored, drained, computed or asserted, 0 for a fence. Refused where a test fails, and
    // then nothing is changed.
    pub fn offer(&mut self, offered: Move) -> Result<u32, Refusal>
        ensures { Moved (standing B.StoreBuffer self.old) offered result (standing B.StoreBuffer self.new) }
    {
        match offered {
            Move::Run {
                thread,
                instruction,
            } => self.run(thread, instruction),
            Move::Drain { thread, cell } => self.drain(thread, cell),
        }
    }

    // The thread runs the instruction of that number.
    fn run(&mut self, thread: usize, instruction: usize) -> Result<u32, Refusal>
        ensures { Moved (standing B.StoreBuffer self.old) (Run thread instruction) result (standing B.StoreBuffer self.new) }
    {
        let turn = self.state.turn(&self.program, thread, instruction)?;
        if !self.buffer.free_to_step(turn.thread) {
            return Err(Refusal::ThreadNotFree);
        }
        let delays = self.buffer.waiting(turn.thread) > 0;
        let action = self.act(turn)?;
        self.state.ran(turn, action, delays);
        Ok(action.value)
    }

    // The action of an instruction, after the tests of its form. A store goes into the buffer.
    fn act(&mut self, turn: Turn) -> Result<Action, Refusal>
        ensures { ActedOn (standing B.StoreBuffer self.old) turn.thread turn.number turn.line.instruction result (standing B.StoreBuffer self.new) }
    {
        match turn.line.instruction {
            Instruction::Load { address, .. } => self.load(turn, address),
            Instruction::Store { address, value } => self.store(turn, address, value),
            Instruction::Fence => self.fence(turn),
            Instruction::Compute {
                operation,
                a,
                b,
                ..
            } => {
                let own = self.state.whose(turn);
                let value = operation.apply(own.operand(a), own.operand(b));
                Ok(Action::new(turn.number, value, Access::Nothing))
            }
            Instruction::Assert { condition } => self.assert(turn, condition),
        }
    }

    // A load takes the thread's newest waiting store to the cell, or the cell itself if there is none. The source of a value that the
    // buffer tells is the youngest store that the actions leave waiting.
    fn load(&self, turn: Turn, address: Operand) -> Result<Action, Refusal>
        ensures { (register : ℕ) → ActedAlone (standing B.StoreBuffer self.now).held turn.thread turn.number (Load register address) result }
    {
        let own = self.state.whose(turn);
        let cell = own.operand(address) as usize;
        let memory = self.state.memory(cell).ok_or(Refusal::CellOutOfRange)?;
        let (value, source) = match self.buffer.newest(turn.thread, cell) {
            Some(value) => {
                let position = own.youngest_left(cell).ok_or(Refusal::StoreNotWaiting)?;
                let thread = turn.thread;
                (value, Some(Name { thread, position }))
            }
            None => (memory.value, memory.last),
        };
        Ok(Action::new(turn.number, value, Access::Loads { cell, source }))
    }

    // A store goes into the buffer.
    fn store(&mut self, turn: Turn, address: Operand, value: Operand) -> Result<Action, Refusal>
        ensures { ActedOn (standing B.StoreBuffer self.old) turn.thread turn.number (Store address value) result (standing B.StoreBuffer self.new) }
    {
        let own = self.state.whose(turn);
        let cell = own.operand(address) as usize;
        let value = own.operand(value);
        self.buffer.put(turn.thread, cell, value)?;
        Ok(Action::new(turn.number, value, Access::Stores { cell }))
    }

    // A fence only tests that no store of the thread waits.
    fn fence(&self, turn: Turn) -> Result<Action, Refusal>
        ensures { ActedAlone (standing B.StoreBuffer self.now).held turn.thread turn.number Fence result }
    {
        if self.buffer.waiting(turn.thread) > 0 {
            return Err(Refusal::FenceBeforeDrain);
        }
        Ok(Action::new(turn.number, 0, Access::Nothing))
    }

    // An assert only tests that its operand is not 0.
    fn assert(&self, turn: Turn, condition: Operand) -> Result<Action, Refusal>
        ensures { ActedAlone (standing B.StoreBuffer self.now).held turn.thread turn.number (Assert condition) result }
    {
        let value = self.state.whose(turn).operand(condition);
        if value == 0 {
            return Err(Refusal::AssertFailed);
        }
        Ok(Action::new(turn.number, value, Access::Nothing))
    }

    // The thread's oldest waiting store to the cell goes to memory.
    fn drain(&mut self, thread: usize, cell: usize) -> Result<u32, Refusal>
        ensures { Moved (standing B.StoreBuffer self.old) (Drain thread cell) result (standing B.StoreBuffer self.new) }
    {
        let own = self.state.thread(thread).ok_or(Refusal::ThreadOutOfRange)?;
        if cell >= CELLS {
            return Err(Refusal::CellOutOfRange);
        }
        if !self.buffer.drain_free(thread, cell) {
            return Err(Refusal::DrainNotFree);
        }
        let position = own.oldest_left(cell).ok_or(Refusal::StoreNotWaiting)?;
        let value = self.buffer.take(thread, cell)?;
        self.state.drained(Name { thread, position }, cell, value);
        Ok(value)
    }
}

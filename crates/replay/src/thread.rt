// What is kept of one thread. What holds of every such thread is said here, in the type.
ghost use Rattle.std.specs.Prelude.{◌≡◌, ◌<◌, ◌≤◌, [], ◌∷◌, ◌++◌, length, IfOk, vec_capacity};
ghost use Rattle.std.specs.List.{slice_get};
ghost use Rattle.std.specs.Option.{option_map};
ghost use Rattle.ledger.specs.Ledgers.{operand as operand_value, start_local};
ghost use Rattle.ledger.specs.Moves.{ran};
ghost use Rattle.present.specs.Calls.{overwriting};
ghost use Rattle.present.specs.Data.{left_waiting, oldest_left, youngest_left};
ghost use Rattle.replay.specs.Names.{source_of};

use super::actions::{Access, Action, MOST};
use super::names::Source;
use super::turn::Turn;
use program::{Instruction, Operand};
use std::alloc::{AllocError, Global};

// how many registers a thread has
const REGISTERS: usize = 8;

#[derive(Drop)]
pub struct Thread {
    label: u8,
    registers: [u32; REGISTERS],
    // the actions in the order in which they ran
    actions: Vec<Action>,
    // room for every action was had when the thread was made
    ghost room: { 256 ≤ vec_capacity actions },
}

impl Action {
    ghost use Rattle.replay.specs.Views.{noted_of};

    // Whether it is a store to the cell that was not drained.
    fn left_waiting(self, cell: usize) -> bool
        ensures { result ≡ left_waiting cell (noted_of self) }
    {
        match (self.access, self.over) {
            (Access::Stores { cell: to }, None) => to == cell,
            _ => false,
        }
    }
}

impl Thread {
    ghost use Rattle.replay.specs.Views.{local_of, noted_in, noted_of};

    // A thread at its start. This is where memory may fail.
    pub(crate) fn new(heap: Global) -> Result<Thread, AllocError>
        ensures local { IfOk result (λ thread. local_of thread ≡ start_local) }
        ensures noted { IfOk result (λ thread. noted_in thread ≡ []) }
    {
        let actions = Vec::with_capacity(heap, MOST)?;
        Ok(Thread {
            label: 0,
            registers: [0; REGISTERS],
            actions,
        })
    }

    // Goes back to the start.
    pub(crate) fn clear(&mut self)
        ensures local { local_of self.new ≡ start_local }
        ensures noted { noted_in self.new ≡ [] }
    {
        self.label = 0;
        self.registers = [0; REGISTERS];
        self.actions.clear();
    }

    // Where the thread stands.
    pub(crate) fn label(&self) -> u8
        ensures { result ≡ (local_of self.now).label }
    {
        self.label
    }

    // How many actions there are.
    pub(crate) fn len(&self) -> usize
        ensures { result ≡ length (noted_in self.now) }
    {
        self.actions.len()
    }

    // The action at a position, if there is one.
    pub(crate) fn action(&self, position: usize) -> Option<Action>
        ensures { option_map noted_of result ≡ slice_get (noted_in self.now) position }
    {
        self.actions.get(position).copied()
    }

    // What an operand comes to.
    pub(crate) fn operand(&self, operand: Operand) -> u32
        ensures { result ≡ operand_value (local_of self.now).registers operand }
    {
        match operand {
            Operand::Register(register) => {
                self.registers.get(register as usize).copied().unwrap_or(0)
            }
            Operand::Constant(constant) => constant,
        }
    }

    // The position of the oldest store to a cell that the actions leave waiting.
    pub(crate) fn oldest_left(&self, cell: usize) -> Option<usize>
        ensures { result ≡ oldest_left 0 cell (noted_in self.now) }
    {
        self.actions
            .iter()
            .position(|action| action.left_waiting(cell))
    }

    // The position of the youngest.
    pub(crate) fn youngest_left(&self, cell: usize) -> Option<usize>
        ensures { result ≡ youngest_left 0 cell (noted_in self.now) }
    {
        self.actions
            .iter()
            .rposition(|action| action.left_waiting(cell))
    }

    // Runs a line: moves on to the next label, and keeps the action. A load and a compute write their value into their register.
    pub(crate) fn run(&mut self, turn: Turn, action: Action)
        requires { length (noted_in self.old) < 256 }
        ensures local { local_of self.new ≡ ran turn.line action.value (local_of self.old) }
        ensures noted { noted_in self.new ≡ noted_in self.old ++ noted_of action ∷ [] }
    {
        self.label = turn.line.next;
        match turn.line.instruction {
            Instruction::Load { register, .. } | Instruction::Compute { register, .. } => {
                self.registers[register as usize] = action.value;
            }
            Instruction::Store { .. } | Instruction::Fence | Instruction::Assert { .. } => {}
        }
        self.actions.push_reserved(action);
    }

    // Notes what the store at a position overwrote in memory.
    pub(crate) fn overwrite(&mut self, position: usize, source: Source)
        requires { position < length (noted_in self.old) }
        ensures local { local_of self.new ≡ local_of self.old }
        ensures noted { noted_in self.new ≡ overwriting (source_of source) position (noted_in self.old) }
    {
        self.actions[position].over = Some(source);
    }
}

// What a replay keeps of a run, besides the stores that wait in its buffer.
ghost use Rattle.std.specs.Prelude.{◌≡◌, ◌<◌, ◌≤◌, [], map, length, IfOk, MatchOption, vec_len};
ghost use Rattle.std.specs.List.{slice_get, sum_by};
ghost use Rattle.std.specs.Option.{option_map};
ghost use Rattle.program.specs.Programs.{lines_of};
ghost use Rattle.present.specs.Calls.{noted_drain};
ghost use Rattle.present.specs.Data.{fresh, how_many_in};
ghost use Rattle.present.specs.Joins.{delaying_in, nodes_in};
ghost use Rattle.replay.specs.Names.{name_of};

use super::actions::{Action, CELLS, Cell, MOST};
use super::names::Name;
use super::thread::Thread;
use super::turn::Turn;
use arrayvec::ArrayVec;
use program::Program;
use refusal::Refusal;
use std::alloc::{AllocError, Global};
use std::array;

// how many threads there are, as the definitions say; one constant over crates would be no plainer
pub(crate) const THREADS: usize = 8;

// a cell at the start
const UNTOUCHED: Cell = Cell {
    value: 0,
    last: None,
};

#[derive(Drop)]
pub struct State {
    threads: [Thread; THREADS],
    cells: [Cell; CELLS],
    // a bit for each thread that delayed a store of its own, the lowest for thread 0: one number, whose ones are the answer
    delayed: u8,
    // a run has at most 256 actions
    ghost few: { sum_by (λ t. vec_len t.actions) threads ≤ 256 },
}

impl State {
    ghost use Rattle.replay.specs.States.{IsThread, Turned, noted_ran};
    ghost use Rattle.replay.specs.Views.{noted_of, present_of, read_of};

    // The data at the start of a run. This is where memory may fail.
    pub(crate) fn new(heap: Global) -> Result<State, AllocError>
        ensures { IfOk result (λ s. present_of s ≡ fresh) }
    {
        let threads = array::try_from_fn(|_| Thread::new(heap))?;
        Ok(State {
            threads,
            cells: [UNTOUCHED; CELLS],
            delayed: 0,
        })
    }

    // Goes back to the start.
    pub(crate) fn clear(&mut self)
        ensures { present_of self.new ≡ fresh }
    {
        for thread in self.threads.iter_mut() {
            thread.clear();
        }
        self.cells = [UNTOUCHED; CELLS];
        self.delayed = 0;
    }

    // A thread by its number, if there is one.
    pub(crate) fn thread(&self, thread: usize) -> Option<&Thread>
        ensures { MatchOption result ((8 ≤ thread) × ((present_of self.now).noted thread ≡ [])) (λ own. (thread < 8) × IsThread (present_of self.now) thread own.now) }
    {
        self.threads.get(thread)
    }

    // The thread whose turn it is.
    pub(crate) fn whose(&self, turn: Turn) -> &Thread
        ensures { IsThread (present_of self.now) turn.thread result.now }
    {
        &self.threads[turn.thread]
    }

    // How many actions there are.
    pub(crate) fn count(&self) -> usize
        ensures { result ≡ how_many_in (present_of self.now) }
    {
        self.threads.iter().map(|thread| thread.len()).sum()
    }

    // The action of a name, if there is one.
    pub(crate) fn action(&self, name: Name) -> Option<Action>
        ensures { option_map noted_of result ≡ slice_get ((present_of self.now).noted name.thread) name.position }
    {
        self.thread(name.thread)?.action(name.position)
    }

    // The turn of a thread that is to run a line. Refused for a thread above 7, then where there is no such instruction or it is
    // another thread's, then where the thread stands at another label, then where 256 actions are there.
    pub(crate) fn turn(
        &self,
        program: &Program,
        thread: usize,
        number: usize,
    ) -> Result<Turn, Refusal>
        ensures { Turned (present_of self.now) (lines_of program.now) thread number result }
    {
        let own = self.thread(thread).ok_or(Refusal::ThreadOutOfRange)?;
        let line = program
            .line(number)
            .filter(|line| line.thread as usize == thread)
            .ok_or(Refusal::NoSuchInstruction)?;
        if line.label != own.label() {
            return Err(Refusal::AtAnotherLabel);
        }
        if self.count() >= MOST {
            return Err(Refusal::RunFull);
        }
        Ok(Turn {
            thread,
            number,
            line,
        })
    }

    // What memory gives for a cell, if there is one.
    pub(crate) fn memory(&self, cell: usize) -> Option<Cell>
        ensures { MatchOption result (16 ≤ cell) (λ found. (cell < 16) × (read_of found ≡ (present_of self.now).memory cell)) }
    {
        self.cells.get(cell).copied()
    }

    // Puts the names of all actions into an empty list, thread by thread, so that the lowest action comes first. The list is lent and
    // not answered: it is large, and an answer is copied.
    pub(crate) fn names(&self, names: &mut ArrayVec<Name, MOST>)
        requires { names.old.items ≡ [] }
        ensures { map name_of names.new.items ≡ nodes_in (present_of self.now) }
    {
        for (thread, own) in self.threads.iter().enumerate() {
            for position in 0..own.len() {
                names.push(Name { thread, position });
            }
        }
    }

    // How many threads delayed a store of their own.
    pub(crate) fn delaying(&self) -> u32
        ensures { result ≡ delaying_in (present_of self.now) }
    {
        self.delayed.count_ones()
    }

    // Keeps the action of a thread that ran a line, and whether it delayed a store of its own by that.
    pub(crate) fn ran(&mut self, turn: Turn, action: Action, delays: bool)
        requires { how_many_in (present_of self.old) < 256 }
        ensures { present_of self.new ≡ noted_ran (present_of self.old) turn.thread turn.line (noted_of action) delays }
    {
        self.threads[turn.thread].run(turn, action);
        if delays {
            self.delayed |= 1 << turn.thread;
        }
    }

    // Notes that the thread's store at a position was drained into a cell, with that value.
    pub(crate) fn drained(&mut self, name: Name, cell: usize, value: u32)
        requires cell { cell < 16 }
        requires there { name.position < length ((present_of self.old).noted name.thread) }
        ensures { present_of self.new ≡ noted_drain (present_of self.old) name.thread cell value name.position }
    {
        let before = self.cells[cell].last;
        self.threads[name.thread].overwrite(name.position, before);
        self.cells[cell] = Cell {
            value,
            last: Some(name),
        };
    }
}

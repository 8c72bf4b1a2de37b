// The waiting stores of all eight threads. What holds of all rows is said here, in the type.
ghost use Rattle.std.specs.Prelude.{◌≡◌, length, IfOk, slice_set};
ghost use Rattle.buffers.specs.Calls.{no_stores, put_answer, put_lists};
ghost use Rattle.buffers.specs.Kinds.{oldest_is_to};
ghost use Rattle.buffers.specs.Lists.{Good, list_of, newest_to, nothing_waits, oldest_to, waits_to, without_oldest};

use super::limits::{CELLS, MOST, THREADS};
use super::row::Row;
use refusal::Refusal;
use std::alloc::{AllocError, Global};
use std::array;

#[derive(Drop)]
pub struct Waiting {
    rows: [Row; THREADS],
    ghost good: { Good rows },
}

impl Waiting {
    ghost use Rattle.buffers.specs.Waits.{lists_in};

    // Nothing waits. This is where memory may fail.
    pub(crate) fn new(heap: Global) -> Result<Waiting, AllocError>
        ensures { IfOk result (λ w. lists_in w ≡ no_stores) }
    {
        let rows = array::try_from_fn(|_thread| Row::new(heap))?;
        Ok(Waiting { rows })
    }

    pub(crate) fn put(&mut self, thread: usize, cell: usize, value: u32) -> Result<(), Refusal>
        ensures value { result ≡ put_answer (lists_in self.old) thread cell }
        ensures lists { lists_in self.new ≡ put_lists (lists_in self.old) thread cell value result }
    {
        if thread >= THREADS {
            return Err(Refusal::ThreadOutOfRange);
        }
        if cell >= CELLS {
            return Err(Refusal::CellOutOfRange);
        }
        if self.count(thread) >= MOST {
            return Err(Refusal::BufferFull);
        }
        self.rows[thread].put(cell, value);
        Ok(())
    }

    pub(crate) fn newest(&self, thread: usize, cell: usize) -> Option<u32>
        ensures { result ≡ newest_to cell (list_of (lists_in self.now) thread) }
    {
        self.rows.get(thread)?.newest(cell)
    }

    // Takes the thread's oldest store to a cell out, if there is one, and tells its value.
    pub(crate) fn take(&mut self, thread: usize, cell: usize) -> Option<u32>
        ensures value { result ≡ oldest_to cell (list_of (lists_in self.old) thread) }
        ensures lists { lists_in self.new ≡ slice_set (lists_in self.old) thread (without_oldest cell (list_of (lists_in self.old) thread)) }
    {
        // By index: after `get_mut` of an array a proof knows none of its rows.
        if thread >= THREADS {
            return None;
        }
        self.rows[thread].take(cell)
    }

    pub(crate) fn count(&self, thread: usize) -> usize
        ensures { result ≡ length (list_of (lists_in self.now) thread) }
    {
        self.rows.get(thread).map_or(0, |row| row.len())
    }

    pub(crate) fn waits_to(&self, thread: usize, cell: usize) -> bool
        ensures { result ≡ waits_to cell (list_of (lists_in self.now) thread) }
    {
        self.rows.get(thread).is_some_and(|row| row.waits_to(cell))
    }

    pub(crate) fn oldest_is_to(&self, thread: usize, cell: usize) -> bool
        ensures { result ≡ oldest_is_to cell (list_of (lists_in self.now) thread) }
    {
        self.rows
            .get(thread)
            .is_some_and(|row| row.oldest_is_to(cell))
    }

    // Whether nothing waits in any thread.
    pub(crate) fn is_empty(&self) -> bool
        ensures { result ≡ nothing_waits (lists_in self.now) }
    {
        self.rows.iter().all(|row| row.is_empty())
    }

    pub(crate) fn clear(&mut self)
        ensures { lists_in self.new ≡ no_stores }
    {
        for row in &mut self.rows {
            row.clear();
        }
    }
}

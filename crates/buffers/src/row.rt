// The waiting stores of one thread. A contract sees a row as the list of its stores, oldest first.
ghost use Rattle.std.specs.Prelude.{◌≡◌, ◌<◌, ◌≤◌, ◌==◌, List, [], ◌∷◌, ◌++◌, length, IfOk, position, vec_capacity};
ghost use Rattle.buffers.specs.Calls.{store};
ghost use Rattle.buffers.specs.Kinds.{oldest_is_to};
ghost use Rattle.buffers.specs.Lists.{newest_to, none_of, oldest_to, waits_to, without_oldest};
ghost use Rattle.buffers.specs.declared.store.Store.{Store};

use super::limits::MOST;
use super::store::Store;
use std::alloc::{AllocError, Global};
use std::marker::Model;

#[derive(Drop)]
pub struct Row {
    stores: Vec<Store>,
}

impl Model for Row {
    ghost Value = { List Store };

    ghost view = { λ row. row.stores.items };

    // Room for every store was had when the row was made.
    ghost invariant = { λ row. 16 ≤ vec_capacity row.stores };
}

impl Row {
    // No store waits. This is where memory may fail.
    pub(crate) fn new(heap: Global) -> Result<Row, AllocError>
        ensures { IfOk result (λ row. row ≡ []) }
    {
        let stores = Vec::with_capacity(heap, MOST)?;
        Ok(Row { stores })
    }

    // How many stores wait.
    pub(crate) fn len(&self) -> usize
        ensures { result ≡ length self.now }
    {
        self.stores.len()
    }

    pub(crate) fn is_empty(&self) -> bool
        ensures { result ≡ none_of self.now }
    {
        self.stores.is_empty()
    }

    // Puts a store at the end.
    pub(crate) fn put(&mut self, cell: usize, value: u32)
        requires { length self.old < 16 }
        ensures { self.new ≡ self.old ++ store cell value ∷ [] }
    {
        self.stores.push_reserved(Store { cell, value });
    }

    // The value of the youngest store to a cell.
    pub(crate) fn newest(&self, cell: usize) -> Option<u32>
        ensures { result ≡ newest_to cell self.now }
    {
        self.stores
            .iter()
            .rev()
            .find(|store| store.cell == cell)
            .map(|store| store.value)
    }

    // Where the oldest store to a cell stands.
    fn place(&self, cell: usize) -> Option<usize>
        ensures { result ≡ position (λ s. s.cell == cell) self.now }
    {
        self.stores.iter().position(|store| store.cell == cell)
    }

    // Whether a store to a cell waits.
    pub(crate) fn waits_to(&self, cell: usize) -> bool
        ensures { result ≡ waits_to cell self.now }
    {
        self.stores.iter().any(|store| store.cell == cell)
    }

    // Whether the oldest store is to a cell.
    pub(crate) fn oldest_is_to(&self, cell: usize) -> bool
        ensures { result ≡ oldest_is_to cell self.now }
    {
        self.stores.first().is_some_and(|store| store.cell == cell)
    }

    // Takes the oldest store to a cell out and tells its value.
    pub(crate) fn take(&mut self, cell: usize) -> Option<u32>
        ensures value { result ≡ oldest_to cell self.old }
        ensures stores { self.new ≡ without_oldest cell self.old }
    {
        let place = self.place(cell)?;
        let store = self.stores.remove(place);
        Some(store.value)
    }

    // Takes every store out.
    pub(crate) fn clear(&mut self)
        ensures { self.new ≡ [] }
    {
        self.stores.clear();
    }
}

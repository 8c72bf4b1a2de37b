// What a store buffer means, whatever its kind: eight lists of waiting stores, and rules that say what they let happen.
// Code above is proved from this alone, so it holds over every kind that shows it.
// A thread and a cell are handed over side by side, since each call takes them apart: the thread is looked at first, and then the cell.
ghost use Rattle.std.specs.Prelude.{◌≡◌, length};
ghost use Rattle.buffers.specs.Calls.{no_stores, put_answer, put_lists, take_answer, take_lists};
ghost use Rattle.buffers.specs.Laws.{Lawful, Rules};
ghost use Rattle.buffers.specs.Lists.{Good, Lists, list_of, newest_to};

use refusal::Refusal;

pub trait StoreBuffer {
    // What waits: a list for each thread, oldest first.
    ghost lists: { Self → Lists };

    // What the lists let happen. It holds what was chosen when the buffer was made, and no call changes it. Each call that changes a
    // buffer says so, since no type can say that something is as before.
    ghost rules: { Self → Rules };

    // Puts a store at the end of the thread's list. Refused for a thread above 7, then for a cell above 15, then where 16
    // stores of the thread wait; the lists are then as before.
    fn put(&mut self, thread: usize, cell: usize, value: u32) -> Result<(), Refusal>
        ensures value { result ≡ put_answer (lists self.old) thread cell }
        ensures lists { lists self.new ≡ put_lists (lists self.old) thread cell value result }
        ensures rules { rules self.new ≡ rules self.old };

    // The value of the thread's youngest waiting store to a cell, if there is one.
    fn newest(&self, thread: usize, cell: usize) -> Option<u32>
        ensures { result ≡ newest_to cell (list_of (lists self.now) thread) };

    // Takes the thread's oldest store to a cell out and tells its value. Refused where that drain is not free; the lists are
    // then as before.
    fn take(&mut self, thread: usize, cell: usize) -> Result<u32, Refusal>
        ensures value { result ≡ take_answer ((rules self.old).drains (lists self.old) thread cell) (lists self.old) thread cell }
        ensures lists { lists self.new ≡ take_lists (lists self.old) thread cell result }
        ensures rules { rules self.new ≡ rules self.old };

    // Whether the thread is free to step.
    fn free_to_step(&self, thread: usize) -> bool
        ensures { result ≡ (rules self.now).steps (lists self.now) thread };

    // Whether the thread's oldest store to a cell is free to drain.
    fn drain_free(&self, thread: usize, cell: usize) -> bool
        ensures { result ≡ (rules self.now).drains (lists self.now) thread cell };

    // How many stores of the thread wait.
    fn waiting(&self, thread: usize) -> usize
        ensures { result ≡ length (list_of (lists self.now) thread) };

    // Empties every list.
    fn clear(&mut self)
        ensures lists { lists self.new ≡ no_stores }
        ensures rules { rules self.new ≡ rules self.old };

    ghost good: { (b : Self) → Good (lists b) };

    ghost lawful: { (b : Self) → Lawful (rules b) };
}

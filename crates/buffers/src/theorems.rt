// What follows from the meaning of a store buffer. Each of these calls does nothing: its contract is the theorem.
ghost use Rattle.buffers.specs.Theorems.{LeaveInOrder, NothingChosen, OnlyOldestLeaves, TakesOldest};

// Over every kind, the stores of a thread to one cell leave in the order in which they were put.
pub fn stores_to_a_cell_leave_in_order()
    ensures { LeaveInOrder }
{}

// Over every kind, a free drain takes the thread's oldest store to its cell.
pub fn a_drain_takes_the_oldest()
    ensures { TakesOldest }
{}

// Over queue, only the thread's oldest store of all can leave.
pub fn queue_lets_only_the_oldest_leave()
    ensures { OnlyOldestLeaves }
{}

// Strong cells with nothing chosen have the rules of the kind below.
pub fn nothing_chosen_changes_nothing()
    ensures { NothingChosen }
{}

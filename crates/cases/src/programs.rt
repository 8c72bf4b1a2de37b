// The programs of the worked runs.
use program::{Instruction, Line, Operand, Operation};

fn assert(value: u32) -> Instruction {
    Instruction::Assert {
        condition: Operand::Constant(value),
    }
}

// Each of two threads stores 1 to its own cell and loads the other's.
pub(super) fn dekker() -> [Line; 4] {
    [
        Line::new(0, 0, 1, Instruction::store(0, 1)),
        Line::new(0, 1, 2, Instruction::load(0, 1)),
        Line::new(1, 0, 1, Instruction::store(1, 1)),
        Line::new(1, 1, 2, Instruction::load(0, 0)),
    ]
}

// The same with a fence between thread 0's store and its load.
pub(super) fn dekker_fenced() -> [Line; 5] {
    [
        Line::new(0, 0, 1, Instruction::store(0, 1)),
        Line::new(0, 1, 2, Instruction::Fence),
        Line::new(0, 2, 3, Instruction::load(0, 1)),
        Line::new(1, 0, 1, Instruction::store(1, 1)),
        Line::new(1, 1, 2, Instruction::load(0, 0)),
    ]
}

// Thread 0 stores a message, 5, to cell 0 and a flag, 1, to cell 1; thread 1 loads the flag, then the message.
pub(super) fn passing() -> [Line; 4] {
    [
        Line::new(0, 0, 1, Instruction::store(0, 5)),
        Line::new(0, 1, 2, Instruction::store(1, 1)),
        Line::new(1, 0, 1, Instruction::load(0, 1)),
        Line::new(1, 1, 2, Instruction::load(1, 0)),
    ]
}

// Thread 0 stores 7 and loads it.
pub(super) fn forwarding() -> [Line; 2] {
    [
        Line::new(0, 0, 1, Instruction::store(0, 7)),
        Line::new(0, 1, 2, Instruction::load(0, 0)),
    ]
}

// Thread 0 adds 2 and 3, stores the sum to cell 15, fences, loads it back and asserts it; then, all at label 5, it may load cell
// 16, store to cell 16 or assert 0.
pub(super) fn mixed() -> [Line; 8] {
    let sum = Instruction::Compute {
        register: 1,
        operation: Operation::Sum,
        a: Operand::Constant(2),
        b: Operand::Constant(3),
    };
    let store_sum = Instruction::Store {
        address: Operand::Constant(15),
        value: Operand::Register(1),
    };
    let assert_sum = Instruction::Assert {
        condition: Operand::Register(2),
    };
    [
        Line::new(0, 0, 1, sum),
        Line::new(0, 1, 2, store_sum),
        Line::new(0, 2, 3, Instruction::Fence),
        Line::new(0, 3, 4, Instruction::load(2, 15)),
        Line::new(0, 4, 5, assert_sum),
        Line::new(0, 5, 6, Instruction::load(0, 16)),
        Line::new(0, 5, 6, Instruction::store(16, 1)),
        Line::new(0, 5, 6, assert(0)),
    ]
}

// Thread 7, the last, stands at label 63, the last, once it has run, and may load and store cells 15 and 16 and assert 1 and 0.
pub(super) fn bounds() -> [Line; 6] {
    [
        Line::new(7, 0, 0, Instruction::load(7, 15)),
        Line::new(7, 0, 0, Instruction::load(7, 16)),
        Line::new(7, 0, 0, Instruction::store(15, 4294967295)),
        Line::new(7, 0, 0, Instruction::store(16, 1)),
        Line::new(7, 0, 63, assert(1)),
        Line::new(7, 63, 63, assert(0)),
    ]
}

// Thread 1 stores 3 and then 4 to cell 0, which thread 0 loads.
pub(super) fn twice() -> [Line; 3] {
    [
        Line::new(0, 0, 1, Instruction::load(0, 0)),
        Line::new(1, 0, 1, Instruction::store(0, 3)),
        Line::new(1, 1, 2, Instruction::store(0, 4)),
    ]
}

// Thread 0 stores 1 to cell 0 again and again.
pub(super) fn filling() -> [Line; 1] {
    [Line::new(0, 0, 0, Instruction::store(0, 1))]
}

// Thread 0 adds 1 to its register again and again.
pub(super) fn counting() -> [Line; 1] {
    let more = Instruction::Compute {
        register: 0,
        operation: Operation::Sum,
        a: Operand::Register(0),
        b: Operand::Constant(1),
    };
    [Line::new(0, 0, 0, more)]
}

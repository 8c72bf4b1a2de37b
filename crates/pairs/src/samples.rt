// The sample programs.
use program::{Instruction, Line, Operand, Operation};
use std::array;

// Adds 1 to register 0.
fn count() -> Instruction {
    Instruction::Compute {
        register: 0,
        operation: Operation::Sum,
        a: Operand::Register(0),
        b: Operand::Constant(1),
    }
}

pub(super) fn dekker() -> [Line; 4] {
    [
        Line::new(0, 0, 1, Instruction::store(0, 1)),
        Line::new(0, 1, 2, Instruction::load(0, 1)),
        Line::new(1, 0, 1, Instruction::store(1, 1)),
        Line::new(1, 1, 2, Instruction::load(0, 0)),
    ]
}

pub(super) fn dekker_fenced() -> [Line; 5] {
    [
        Line::new(0, 0, 1, Instruction::store(0, 1)),
        Line::new(0, 1, 2, Instruction::Fence),
        Line::new(0, 2, 3, Instruction::load(0, 1)),
        Line::new(1, 0, 1, Instruction::store(1, 1)),
        Line::new(1, 1, 2, Instruction::load(0, 0)),
    ]
}

pub(super) fn looping() -> [Line; 3] {
    [
        Line::new(0, 0, 1, Instruction::load(0, 1)),
        Line::new(0, 1, 2, count()),
        Line::new(
            0,
            2,
            0,
            Instruction::Store {
                address: Operand::Constant(0),
                value: Operand::Register(0),
            },
        ),
    ]
}

// A store, then one of two arms, then a load. The first arm has a fence, the second too where `both` says so.
pub(super) fn branch(both: bool) -> [Line; 4] {
    let arm = if both { Instruction::Fence } else { count() };
    [
        Line::new(3, 0, 1, Instruction::store(0, 1)),
        Line::new(3, 1, 2, Instruction::Fence),
        Line::new(3, 1, 2, arm),
        Line::new(3, 2, 3, Instruction::load(0, 1)),
    ]
}

// Eight threads of sixteen lines: four times a store, a load, a fence and a sum. The last line is one too many.
pub(super) fn full() -> [Line; 129] {
    array::from_fn(|place| {
        if place == 128 {
            return Line::new(0, 0, 0, Instruction::Fence);
        }
        let thread = (place / 16) as u8;
        let label = (place % 16) as u8;
        let instruction = match label % 4 {
            0 => Instruction::store(0, 1),
            1 => Instruction::load(0, 1),
            2 => Instruction::Fence,
            _ => count(),
        };
        Line::new(thread, label, label + 1, instruction)
    })
}

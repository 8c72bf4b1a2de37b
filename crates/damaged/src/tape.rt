// Putting a recording together, record by record.
use recording::{Kind, Setup};
use std::alloc::{AllocError, Global};

// A move. A record of the reader's could be a setup too, and what is put together here leans on no part of it that is tested.
#[derive(Clone, Copy)]
pub(super) enum Step {
    Run { thread: u8, instruction: u8 },
    Drain { thread: u8, cell: u8 },
}

pub(super) fn run(thread: u8, instruction: u8) -> Step {
    Step::Run {
        thread,
        instruction,
    }
}

pub(super) fn drain(thread: u8, cell: u8) -> Step {
    Step::Drain { thread, cell }
}

impl Step {
    // The bytes of its record, by a call: a conversion would not say of what.
    fn bytes(self) -> [u8; 6] {
        match self {
            Step::Run {
                thread,
                instruction,
            } => [6, 0, 3, 0, thread, instruction],
            Step::Drain { thread, cell } => [6, 0, 4, 0, thread, cell],
        }
    }
}

// A kind of buffer with no strong cell.
pub(super) fn plain(kind: Kind) -> Setup {
    Setup { kind, strong: 0 }
}

// Per-cell under a strong cell 14.
pub(super) const STRONG_14: Setup = Setup {
    kind: Kind::PerCell,
    strong: 1 << 14,
};

// A recording that begins with that setup. Kinds are numbered here once more, and not by the reader's own numbers.
pub(super) fn begun(heap: Global, setup: Setup) -> Result<Vec<u8>, AllocError> {
    let mut tape = Vec::new(heap);
    let number = match setup.kind {
        Kind::Direct => 0,
        Kind::Queue => 1,
        Kind::PerCell => 2,
    };
    tape.extend_from_slice(&[8, 0, 1, 0, number, 0])?;
    tape.extend_from_slice(&setup.strong.to_le_bytes())?;
    Ok(tape)
}

pub(super) fn add_instruction(tape: &mut Vec<u8>, fields: [u8; 16]) -> Result<(), AllocError> {
    tape.extend_from_slice(&[20, 0, 2, 0])?;
    tape.extend_from_slice(&fields)
}

pub(super) fn add_step(tape: &mut Vec<u8>, step: Step) -> Result<(), AllocError> {
    tape.extend_from_slice(&step.bytes())
}

pub(super) fn add_steps(tape: &mut Vec<u8>, steps: &[Step]) -> Result<(), AllocError> {
    for step in steps {
        add_step(tape, *step)?;
    }
    Ok(())
}

// The fields of an instruction of `place`: thread, label and next label. Cells and values are constants.
pub(super) fn load(place: [u8; 3], register: u8, cell: u8) -> [u8; 16] {
    let [thread, label, next] = place;
    [
        thread, label, next, 0, register, 0, 1, 0, cell, 0, 0, 0, 0, 0, 0, 0,
    ]
}

pub(super) fn store(place: [u8; 3], cell: u8, value: u8) -> [u8; 16] {
    let [thread, label, next] = place;
    [
        thread, label, next, 1, 0, 0, 1, 1, cell, 0, 0, 0, value, 0, 0, 0,
    ]
}

pub(super) fn fence(place: [u8; 3]) -> [u8; 16] {
    let [thread, label, next] = place;
    [thread, label, next, 2, 0, 0, 0, 0, 0, 0, 0, 0, 0, 0, 0, 0]
}

// An assert of a register.
pub(super) fn assert(place: [u8; 3], register: u8) -> [u8; 16] {
    let [thread, label, next] = place;
    [
        thread, label, next, 4, 0, 0, 0, 0, register, 0, 0, 0, 0, 0, 0, 0,
    ]
}

// Dekker over queue, both loads before the drains: 124 bytes. The setup is at 0, the instructions are at 8, 28, 48 and 68, the runs at
// 88, 94, 100 and 106, and the drains at 112 and 118.
pub(super) fn dekker(heap: Global) -> Result<Vec<u8>, AllocError> {
    let mut tape = begun(heap, plain(Kind::Queue))?;
    add_instruction(&mut tape, store([0, 0, 1], 0, 1))?;
    add_instruction(&mut tape, load([0, 1, 2], 0, 1))?;
    add_instruction(&mut tape, store([1, 0, 1], 1, 1))?;
    add_instruction(&mut tape, load([1, 1, 2], 0, 0))?;
    let late = [
        run(0, 0),
        run(0, 1),
        run(1, 2),
        run(1, 3),
        drain(0, 0),
        drain(1, 1),
    ];
    add_steps(&mut tape, &late)?;
    Ok(tape)
}

// What a program takes and refuses, what the operations give, and how lines are printed.
use super::*;
use refusal::Refusal;
use std::alloc::Global;
use std::process::Abort;
use std::test::Fail;

const HALF: u32 = 0x8000_0000;

const LAST: u32 = u32::MAX;

fn fence(thread: u8, label: u8, next: u8) -> Line {
    Line::new(thread, label, next, Instruction::Fence)
}

fn standing(instruction: Instruction) -> Line {
    Line::new(0, 1, 2, instruction)
}

// Every place of an instruction that names a register, with that register in it.
fn naming(register: u8) -> [Instruction; 8] {
    let named = Operand::Register(register);
    let other = Operand::Constant(LAST);
    let operation = Operation::Sum;
    [
        Instruction::Load {
            register,
            address: other,
        },
        Instruction::Load {
            register: 0,
            address: named,
        },
        Instruction::Store {
            address: named,
            value: other,
        },
        Instruction::Store {
            address: other,
            value: named,
        },
        Instruction::Compute {
            register,
            operation,
            a: other,
            b: other,
        },
        Instruction::Compute {
            register: 0,
            operation,
            a: named,
            b: other,
        },
        Instruction::Compute {
            register: 0,
            operation,
            a: other,
            b: named,
        },
        Instruction::Assert { condition: named },
    ]
}

fn takes(rt: &impl Abort, program: &mut Program, line: Line) {
    let number = program.len();
    assert_eq!(rt; program.add(line), Ok(number));
    assert_eq!(rt; program.len(), number + 1);
}

fn refuses(rt: &impl Abort, program: &mut Program, line: Line, why: Refusal) {
    let number = program.len();
    assert_eq!(rt; program.add(line), Err(why));
    assert_eq!(rt; program.len(), number);
}

#[test]
fn a_program_has_room_for_128_lines(rt: HostRuntime) -> Result<(), Fail> {
    let mut program = Program::new(rt.alloc())?;
    for number in 0..128 {
        assert_eq!(rt; program.add(fence(0, 0, 0)), Ok(number));
    }
    refuses(&rt, &mut program, fence(0, 0, 0), Refusal::ProgramFull);
    refuses(&rt, &mut program, fence(8, 0, 0), Refusal::ProgramFull);
    assert_eq!(rt; program.len(), 128);
    Ok(())
}

#[test]
fn fields_stay_in_their_ranges(rt: HostRuntime) -> Result<(), Fail> {
    let mut program = Program::new(rt.alloc())?;
    takes(&rt, &mut program, fence(7, 63, 63));
    refuses(
        &rt,
        &mut program,
        fence(8, 63, 63),
        Refusal::FieldOutOfRange,
    );
    refuses(
        &rt,
        &mut program,
        fence(7, 64, 63),
        Refusal::FieldOutOfRange,
    );
    refuses(
        &rt,
        &mut program,
        fence(7, 63, 64),
        Refusal::FieldOutOfRange,
    );
    for instruction in naming(7) {
        takes(&rt, &mut program, standing(instruction));
    }
    for instruction in naming(8) {
        refuses(
            &rt,
            &mut program,
            standing(instruction),
            Refusal::FieldOutOfRange,
        );
    }
    Ok(())
}

#[test]
fn lines_are_read_by_number(rt: HostRuntime) -> Result<(), Fail> {
    let mut program = Program::new(rt.alloc())?;
    assert_eq!(rt; program.line(0), None);
    takes(&rt, &mut program, fence(0, 1, 2));
    takes(&rt, &mut program, fence(3, 4, 5));
    refuses(&rt, &mut program, fence(6, 7, 64), Refusal::FieldOutOfRange);
    assert_eq!(rt; program.line(0), Some(fence(0, 1, 2)));
    assert_eq!(rt; program.line(1), Some(fence(3, 4, 5)));
    assert_eq!(rt; program.line(2), None);
    assert_eq!(rt; program.line(usize::MAX), None);
    assert!(rt; program.lines() == [fence(0, 1, 2), fence(3, 4, 5)].as_slice());
    Ok(())
}

#[test]
fn operations_are_of_32_bits(rt: HostRuntime) {
    let cases = [
        (Operation::Sum, LAST, 1, 0),
        (Operation::Sum, HALF, HALF, 0),
        (Operation::Sum, HALF - 1, 1, HALF),
        (Operation::Difference, 0, 1, LAST),
        (Operation::Difference, 0, LAST, 1),
        (Operation::Difference, HALF, 1, HALF - 1),
        (Operation::And, LAST, HALF, HALF),
        (Operation::And, HALF, HALF - 1, 0),
        (Operation::ExclusiveOr, LAST, HALF, HALF - 1),
        (Operation::ExclusiveOr, HALF, HALF, 0),
        (Operation::Equal, LAST, LAST, 1),
        (Operation::Equal, 0, HALF, 0),
        (Operation::Less, LAST, 0, 0),
        (Operation::Less, HALF - 1, HALF, 1),
        (Operation::Less, HALF, HALF, 0),
    ];
    for (operation, a, b, result) in cases {
        assert_eq!(rt; operation.apply(a, b), result);
    }
}

#[test]
fn operations_are_numbered_from_0(rt: HostRuntime) {
    let all = [
        Operation::Sum,
        Operation::Difference,
        Operation::And,
        Operation::ExclusiveOr,
        Operation::Equal,
        Operation::Less,
    ];
    for (number, operation) in (0u8..).zip(all) {
        assert_eq!(rt; Operation::try_from(number), Ok(operation));
    }
    for number in [6, 7, 255] {
        assert_eq!(rt;
            Operation::try_from(number),
            Err(UnknownOperation { number })
        );
    }
}

fn prints(rt: &impl Abort, heap: Global, instruction: Instruction, text: &str) -> Result<(), Fail> {
    let line = standing(instruction);
    assert!(rt; format!(in heap; "{line}")?.as_str() == text);
    Ok(())
}

#[test]
fn every_form_is_printed(rt: HostRuntime) -> Result<(), Fail> {
    let heap = rt.alloc();
    let address = Operand::Constant(5);
    let value = Operand::Register(1);
    prints(
        &rt,
        heap,
        Instruction::Load {
            register: 0,
            address,
        },
        "0 1 2 load r0 5",
    )?;
    prints(
        &rt,
        heap,
        Instruction::Store { address, value },
        "0 1 2 store 5 r1",
    )?;
    prints(&rt, heap, Instruction::Fence, "0 1 2 fence")?;
    prints(
        &rt,
        heap,
        Instruction::Assert { condition: value },
        "0 1 2 assert r1",
    )?;
    for (operation, text) in [
        (Operation::Sum, "0 1 2 set r0 add r1 5"),
        (Operation::Difference, "0 1 2 set r0 sub r1 5"),
        (Operation::And, "0 1 2 set r0 and r1 5"),
        (Operation::ExclusiveOr, "0 1 2 set r0 xor r1 5"),
        (Operation::Equal, "0 1 2 set r0 eq r1 5"),
        (Operation::Less, "0 1 2 set r0 less r1 5"),
    ] {
        let compute = Instruction::Compute {
            register: 0,
            operation,
            a: value,
            b: address,
        };
        prints(&rt, heap, compute, text)?;
    }
    Ok(())
}

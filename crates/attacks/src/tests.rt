// The attack pairs of programs whose pairs are known.
use super::*;
use program::{Instruction, Line, Operand};
use std::alloc::Global;
use std::process::Abort;
use std::test::Fail;

// What stands in a list that nothing was written to.
const BLANK: Pair = Pair { store: 7, load: 9 };

fn pair(store: usize, load: usize) -> Pair {
    Pair { store, load }
}

// An assert that every run passes.
const PASSED: Instruction = Instruction::Assert {
    condition: Operand::Constant(1),
};

fn program_of(heap: Global, lines: &[Line]) -> Result<Program, Fail> {
    let mut program = Program::new(heap)?;
    for line in lines {
        program.add(*line)?;
    }
    Ok(program)
}

// Two threads, each with a store and then a load of the other's cell.
fn dekker() -> [Line; 4] {
    [
        Line::new(0, 0, 1, Instruction::store(0, 1)),
        Line::new(0, 1, 2, Instruction::load(0, 1)),
        Line::new(1, 0, 1, Instruction::store(1, 1)),
        Line::new(1, 1, 2, Instruction::load(0, 0)),
    ]
}

#[test]
fn dekker_has_a_pair_in_each_thread(rt: HostRuntime) -> Result<(), Fail> {
    let program = program_of(rt.alloc(), &dekker())?;
    let mut fitting = [BLANK; 2];
    assert_eq!(rt; attack_pairs(&program, &mut fitting), Ok(2));
    assert!(rt; fitting == [pair(0, 1), pair(2, 3)]);
    let mut longer = [BLANK; 3];
    assert_eq!(rt; attack_pairs(&program, &mut longer), Ok(2));
    assert!(rt; longer == [pair(0, 1), pair(2, 3), BLANK]);
    let mut shorter = [BLANK; 1];
    assert_eq!(rt;
        attack_pairs(&program, &mut shorter),
        Err(Refusal::TooShort)
    );
    assert!(rt; shorter == [BLANK]);
    Ok(())
}

#[test]
fn an_empty_program_has_no_pair(rt: HostRuntime) -> Result<(), Fail> {
    let mut list: [Pair; 0] = [];
    assert_eq!(rt; attack_pairs(&Program::new(rt.alloc())?, &mut list), Ok(0));
    Ok(())
}

fn lists(
    rt: &impl Abort,
    heap: Global,
    lines: &[Line],
    count: usize,
    pairs: [Pair; 3],
) -> Result<(), Fail> {
    let mut list = [BLANK; 3];
    assert_eq!(rt;
        attack_pairs(&program_of(heap, lines)?, &mut list),
        Ok(count)
    );
    assert!(rt; list == pairs);
    Ok(())
}

#[test]
fn threads_do_not_join(rt: HostRuntime) -> Result<(), Fail> {
    lists(
        &rt,
        rt.alloc(),
        &[
            Line::new(0, 0, 1, Instruction::store(0, 1)),
            Line::new(1, 1, 2, Instruction::load(0, 1)),
        ],
        0,
        [BLANK; 3],
    )
}

#[test]
fn a_fence_cuts_its_own_chain(rt: HostRuntime) -> Result<(), Fail> {
    let first = Line::new(0, 0, 1, Instruction::store(0, 1));
    let fence = Line::new(0, 1, 2, Instruction::Fence);
    let around = Line::new(0, 1, 2, PASSED);
    let last = Line::new(0, 2, 3, Instruction::load(0, 1));
    let pairs = [pair(0, 3), BLANK, BLANK];
    lists(&rt, rt.alloc(), &[first, fence, last], 0, [BLANK; 3])?;
    lists(&rt, rt.alloc(), &[first, fence, around, last], 1, pairs)
}

// On the way round the loop, the load that stands first in the program comes last.
#[test]
fn a_loop_joins_a_store_to_every_load(rt: HostRuntime) -> Result<(), Fail> {
    let first = Line::new(0, 0, 1, Instruction::load(0, 1));
    let back = Line::new(0, 1, 0, Instruction::store(0, 1));
    let on = Line::new(0, 1, 2, Instruction::store(0, 1));
    let last = Line::new(0, 2, 0, Instruction::load(0, 1));
    let pairs = [pair(1, 0), pair(1, 2), BLANK];
    lists(
        &rt,
        rt.alloc(),
        &[first, back],
        1,
        [pair(1, 0), BLANK, BLANK],
    )?;
    lists(&rt, rt.alloc(), &[first, on, last], 2, pairs)
}

#[test]
fn a_store_may_follow_itself(rt: HostRuntime) -> Result<(), Fail> {
    let again = Line::new(0, 0, 0, Instruction::store(0, 1));
    let out = Line::new(0, 0, 1, Instruction::load(0, 1));
    lists(
        &rt,
        rt.alloc(),
        &[again, out],
        1,
        [pair(0, 1), BLANK, BLANK],
    )
}

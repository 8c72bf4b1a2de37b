// Lists the attack pairs of some sample programs: prints each program, one line of it a line, and then its pairs.
#![tactic(auto)]

mod samples;

use attacks::{Pair, attack_pairs};
use program::{Line, Program};
use refusal::Refusal;
use std::alloc::Global;

// the most pairs that a program of 128 lines has: 64 stores, each before 64 loads
const MOST_PAIRS: usize = 4096;

// A program of these lines; a refusal is printed, and its line is left out.
fn program_of(rt: &impl Print, heap: Global, lines: &[Line]) -> anyhow::Result<Program> {
    let mut program = Program::new(heap)?;
    for line in lines {
        if let Err(refusal) = program.add(*line) {
            println!(rt; "refused {refusal}: {line}")?;
        }
    }
    Ok(program)
}

fn print_program(rt: &impl Print, program: &Program) -> anyhow::Result<()> {
    for (number, line) in program.lines().iter().enumerate() {
        println!(rt; "{number}: {line}")?;
    }
    Ok(())
}

fn print_pairs(rt: &impl Print, program: &Program) -> anyhow::Result<()> {
    let mut list = [Pair { store: 0, load: 0 }; MOST_PAIRS];
    match attack_pairs(program, &mut list) {
        Ok(count) => {
            println!(rt; "{count} attack pairs")?;
            for pair in &list[..count] {
                println!(rt; "{pair}")?;
            }
        }
        Err(refusal) => println!(rt; "refused {refusal}")?,
    }
    Ok(())
}

fn show(rt: &HostRuntime, name: &str, lines: &[Line]) -> anyhow::Result<()> {
    println!(rt; "== {name}")?;
    let program = program_of(rt, rt.alloc(), lines)?;
    print_program(rt, &program)?;
    print_pairs(rt, &program)
}

fn run(rt: &HostRuntime) -> anyhow::Result<()> {
    show(
        rt,
        "Dekker: each thread stores to its own cell, then loads the other's",
        &samples::dekker(),
    )?;
    show(
        rt,
        "Dekker with a fence in thread 0",
        &samples::dekker_fenced(),
    )?;
    show(
        rt,
        "a loop: the store of one round comes before the load of the next",
        &samples::looping(),
    )?;
    show(
        rt,
        "a branch with a fence on one arm",
        &samples::branch(false),
    )?;
    show(
        rt,
        "a branch with a fence on both arms",
        &samples::branch(true),
    )?;
    show(rt, "no line", &[])?;
    show(
        rt,
        "128 lines, and one more that is refused",
        &samples::full(),
    )
}

fn main(rt: HostRuntime) -> anyhow::Result<()> {
    run(&rt)
}

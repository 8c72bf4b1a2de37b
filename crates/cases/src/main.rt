// Performs the worked runs and prints, run by run, each call with its answer.
#![tactic(auto)]

mod programs;
mod runs;

use attacks::{Pair, attack_pairs};
use buffers::{Direct, PerCell, Queue, StoreBuffer, StrongCells};
use program::{Line, Program};
use replay::{Answer, Call, perform};
use std::alloc::Global;
use std::array;

// A program of these lines. It is made, and pairs are shown, nearly as in the program `pairs`: a crate for two short functions would be no plainer.
fn program_of(rt: &HostRuntime, heap: Global, lines: &[Line]) -> anyhow::Result<Program> {
    let mut program = Program::new(heap)?;
    for line in lines {
        if let Err(refusal) = program.add(*line) {
            println!(rt; "a line was refused {refusal}")?;
        }
    }
    Ok(program)
}

fn print_answer(rt: &HostRuntime, answer: &Answer) -> anyhow::Result<()> {
    match answer {
        Answer::Moved(value) => println!(rt; "{value}")?,
        Answer::StartedOver => println!(rt; "done")?,
        Answer::Judged { verdict, list } => {
            println!(rt; "{verdict}")?;
            for name in list.iter() {
                println!(rt; "{name}")?;
            }
        }
        Answer::Refused(refusal) => println!(rt; "refused {refusal}")?,
    }
    Ok(())
}

fn show<B: StoreBuffer + Drop>(
    rt: &HostRuntime,
    name: &str,
    lines: &[Line],
    buffer: B,
    calls: &[Call],
) -> anyhow::Result<()> {
    println!(rt; "== {name}")?;
    let program = program_of(rt, rt.alloc(), lines)?;
    let answers = perform(rt.alloc(), program, buffer, calls)?;
    for (call, answer) in calls.iter().zip(answers.iter()) {
        print!(rt; "{call}: ")?;
        print_answer(rt, answer)?;
    }
    Ok(())
}

fn show_pairs(rt: &HostRuntime, name: &str, lines: &[Line]) -> anyhow::Result<()> {
    println!(rt; "== {name}")?;
    let program = program_of(rt, rt.alloc(), lines)?;
    let mut list = [Pair { store: 0, load: 0 }; 16];
    match attack_pairs(&program, &mut list) {
        Ok(count) => {
            println!(rt; "{count} attack pairs")?;
            for pair in list.iter().take(count) {
                println!(rt; "{pair}")?;
            }
        }
        Err(refusal) => println!(rt; "refused {refusal}")?,
    }
    Ok(())
}

// Two threads that each store to their own cell and load the other's.
fn dekker(rt: &HostRuntime) -> anyhow::Result<()> {
    let lines = programs::dekker();
    show(
        rt,
        "Dekker over queue, both loads before the drains",
        &lines,
        Queue::new(rt.alloc())?,
        &runs::late(),
    )?;
    show(
        rt,
        "Dekker over queue, each store drained directly",
        &lines,
        Queue::new(rt.alloc())?,
        &runs::prompt(),
    )?;
    show(
        rt,
        "Dekker over queue, thread 0's drain after its load",
        &lines,
        Queue::new(rt.alloc())?,
        &runs::half_late(),
    )?;
    show(
        rt,
        "Dekker over direct, a load right after the store",
        &lines,
        Direct::new(rt.alloc())?,
        &runs::hasty(),
    )?;
    show_pairs(rt, "Dekker's attack pairs", &lines)?;
    show_pairs(
        rt,
        "Dekker's attack pairs with a fence in thread 0",
        &programs::dekker_fenced(),
    )
}

// A message and its flag, and a load of an own store.
fn passing(rt: &HostRuntime) -> anyhow::Result<()> {
    let lines = programs::passing();
    show(
        rt,
        "message passing over queue, the flag drained first",
        &lines,
        Queue::new(rt.alloc())?,
        &runs::swapped(),
    )?;
    show(
        rt,
        "message passing over per-cell, the flag drained first",
        &lines,
        PerCell::new(rt.alloc())?,
        &runs::swapped(),
    )?;
    let chosen = array::from_fn(|cell| cell == 0);
    show(
        rt,
        "message passing over per-cell under a strong cell 0",
        &lines,
        StrongCells::new(PerCell::new(rt.alloc())?, chosen),
        &runs::hasty(),
    )?;
    show(
        rt,
        "two waiting stores to one cell over queue, and a load of the first",
        &programs::twice(),
        Queue::new(rt.alloc())?,
        &runs::twice(),
    )?;
    show(
        rt,
        "a load of an own waiting store over queue",
        &programs::forwarding(),
        Queue::new(rt.alloc())?,
        &runs::early(),
    )
}

// Every form, every way to be refused, and the edges of the ranges.
fn edges(rt: &HostRuntime) -> anyhow::Result<()> {
    show(
        rt,
        "every form, and each way to be refused",
        &programs::mixed(),
        Queue::new(rt.alloc())?,
        &runs::through(),
    )?;
    show(
        rt,
        "addresses 15 and 16, asserts of 1 and 0",
        &programs::bounds(),
        Queue::new(rt.alloc())?,
        &runs::bounds(),
    )?;
    show(
        rt,
        "sixteen waiting stores, and one more",
        &programs::filling(),
        Queue::new(rt.alloc())?,
        &runs::filling(),
    )
}

// Judgements at the edges, and fresh starts.
fn judgements(rt: &HostRuntime) -> anyhow::Result<()> {
    let lines = programs::dekker();
    show(
        rt,
        "a fresh replay",
        &lines,
        Queue::new(rt.alloc())?,
        &runs::fresh(),
    )?;
    show(
        rt,
        "a judgement while a store waits, and lists that are too short",
        &lines,
        Queue::new(rt.alloc())?,
        &runs::too_soon(),
    )?;
    show(
        rt,
        "a run that starts over in the middle",
        &lines,
        Queue::new(rt.alloc())?,
        &runs::over_again(),
    )?;
    show(
        rt,
        "256 actions, and one more",
        &programs::counting(),
        Queue::new(rt.alloc())?,
        &runs::counting(),
    )
}

fn run(rt: &HostRuntime) -> anyhow::Result<()> {
    dekker(rt)?;
    passing(rt)?;
    edges(rt)?;
    judgements(rt)
}

fn main(rt: HostRuntime) -> anyhow::Result<()> {
    run(&rt)
}

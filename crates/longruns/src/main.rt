// Judges two runs of 256 actions, the most that a run has, as often as its argument says: for counting what a judgement costs.
#![tactic(auto)]

use buffers::Queue;
use ledger::Move;
use program::{Instruction, Line, Program};
use replay::{Name, Replay, Verdict};
use std::alloc::Global;
use std::env;

// each round has two actions of each thread
const ROUNDS: usize = 16;

// The two instructions of each thread, in the order in which they stand.
#[derive(Clone, Copy)]
enum Half {
    Store,
    Load,
}

// The cell that a thread loads: the one that its neighbour stores to.
fn neighbour(thread: u8) -> u8 {
    thread ^ 1
}

// Each of eight threads stores 1 to its own cell and loads its neighbour's, again and again.
fn neighbours(heap: Global) -> anyhow::Result<Program> {
    let mut program = Program::new(heap)?;
    for thread in 0..8u8 {
        let store = Instruction::store(u32::from(thread), 1);
        let load = Instruction::load(0, u32::from(neighbour(thread)));
        program.add(Line::new(thread, 0, 1, store))?;
        program.add(Line::new(thread, 1, 0, load))?;
    }
    Ok(program)
}

// A thread runs one of its two instructions.
fn run(thread: u8, half: Half) -> Move {
    let thread = thread as usize;
    let first = 2 * thread;
    let instruction = match half {
        Half::Store => first,
        Half::Load => first + 1,
    };
    Move::Run {
        thread,
        instruction,
    }
}

// A thread's store goes to its own cell.
fn drain(thread: u8) -> Move {
    let thread = thread as usize;
    Move::Drain {
        thread,
        cell: thread,
    }
}

// A round of one thread, its store drained directly.
fn prompt(replay: &mut Replay<Queue>, thread: u8) -> anyhow::Result<()> {
    replay.offer(run(thread, Half::Store))?;
    replay.offer(drain(thread))?;
    replay.offer(run(thread, Half::Load))?;
    Ok(())
}

// A round of two neighbours, whose loads both come before the drains.
fn late(replay: &mut Replay<Queue>, first: u8, second: u8) -> anyhow::Result<()> {
    replay.offer(run(first, Half::Store))?;
    replay.offer(run(second, Half::Store))?;
    replay.offer(run(first, Half::Load))?;
    replay.offer(run(second, Half::Load))?;
    replay.offer(drain(first))?;
    replay.offer(drain(second))?;
    Ok(())
}

// All rounds, the last two threads late in the last one where `late_end` says so.
fn all_rounds(replay: &mut Replay<Queue>, late_end: bool) -> anyhow::Result<()> {
    for round in 0..ROUNDS {
        for thread in 0..6 {
            prompt(replay, thread)?;
        }
        if late_end && round == ROUNDS - 1 {
            late(replay, 6, 7)?;
        } else {
            prompt(replay, 6)?;
            prompt(replay, 7)?;
        }
    }
    Ok(())
}

// Judges that often, and answers the last verdict.
fn judged(replay: &Replay<Queue>, times: u32) -> anyhow::Result<Verdict> {
    let mut list = [Name::default(); 256];
    for _ in 1..times {
        let _ = replay.judge(&mut list);
    }
    Ok(replay.judge(&mut list)?)
}

fn show(rt: &HostRuntime, late_end: bool, times: u32) -> anyhow::Result<()> {
    let program = neighbours(rt.alloc())?;
    let mut replay = Replay::new(rt.alloc(), program, Queue::new(rt.alloc())?)?;
    all_rounds(&mut replay, late_end)?;
    let verdict = judged(&replay, times)?;
    println!(rt; "{times} times: {verdict}")?;
    Ok(())
}

// The number of judgements of each run: the first argument for the sequential one, the second for the violation.
fn times(rt: &HostRuntime, which: usize) -> anyhow::Result<u32> {
    let Some(word) = env::args(rt)?.nth(which) else {
        return Ok(1);
    };
    Ok(word.parse::<u32>()?)
}

fn main(rt: HostRuntime) -> anyhow::Result<()> {
    show(&rt, false, times(&rt, 1)?)?;
    show(&rt, true, times(&rt, 2)?)
}

// Moves that the replay refuses, one for each refusal, beside moves that it takes.
use super::showing::show_tape;
use super::tape::{
    STRONG_14, Step, add_instruction, add_steps, assert, begun, drain, fence, load, plain, run,
    store,
};
use recording::{Kind, Setup};
use std::alloc::{AllocError, Global};

// A setup and eleven instructions, of threads 0 to 3: the first move is record 12, at byte 228.
pub(super) fn ways(heap: Global, setup: Setup) -> Result<Vec<u8>, AllocError> {
    let mut tape = begun(heap, setup)?;
    add_instruction(&mut tape, store([0, 0, 1], 15, 5))?;
    add_instruction(&mut tape, load([0, 1, 2], 0, 15))?;
    add_instruction(&mut tape, fence([0, 2, 3]))?;
    add_instruction(&mut tape, load([0, 3, 4], 1, 16))?;
    add_instruction(&mut tape, store([0, 3, 4], 16, 1))?;
    add_instruction(&mut tape, assert([0, 3, 4], 7))?;
    add_instruction(&mut tape, assert([0, 3, 4], 0))?;
    add_instruction(&mut tape, fence([1, 0, 1]))?;
    add_instruction(&mut tape, load([2, 0, 1], 0, 16))?;
    add_instruction(&mut tape, store([0, 1, 2], 14, 6))?;
    add_instruction(&mut tape, store([3, 0, 1], 3, 1))?;
    Ok(tape)
}

// The moves behind that program.
pub(super) fn show_ways(
    rt: &HostRuntime,
    name: &str,
    setup: Setup,
    steps: &[Step],
) -> anyhow::Result<()> {
    let mut tape = ways(rt.alloc(), setup)?;
    add_steps(&mut tape, steps)?;
    show_tape(rt, name, tape.as_slice())
}

// Over queue.
fn show_queue(rt: &HostRuntime, name: &str, steps: &[Step]) -> anyhow::Result<()> {
    show_ways(rt, name, plain(Kind::Queue), steps)
}

// Thread 0 at label 3, with nothing waiting and 5 in its register 0, and then this move.
fn show_behind_fence(rt: &HostRuntime, name: &str, step: Step) -> anyhow::Result<()> {
    let steps = [run(0, 0), drain(0, 15), run(0, 1), run(0, 2), step];
    show_queue(rt, name, &steps)
}

fn show_runs(rt: &HostRuntime) -> anyhow::Result<()> {
    show_queue(rt, "3: a run of thread 8", &[run(8, 0)])?;
    show_queue(rt, "3: a run of thread 255", &[run(255, 0)])?;
    show_queue(rt, "4: the instruction 11, of 11", &[run(0, 11)])?;
    show_queue(rt, "4: the instruction 255", &[run(0, 255)])?;
    show_queue(rt, "4: another thread's instruction", &[run(1, 0)])?;
    show_queue(rt, "5: another label", &[run(0, 1)])?;
    show_queue(rt, "5: an instruction again", &[run(0, 0), run(0, 0)])?;
    show_queue(
        rt,
        "8: a fence while a store waits",
        &[run(0, 0), run(0, 1), run(0, 2)],
    )?;
    show_queue(
        rt,
        "a fence of another thread",
        &[run(0, 0), run(1, 7), drain(0, 15)],
    )?;
    show_behind_fence(rt, "9: a load from cell 16", run(0, 3))?;
    show_behind_fence(rt, "9: a store to cell 16", run(0, 4))?;
    show_behind_fence(rt, "10: an assert of 0", run(0, 5))?;
    show_behind_fence(rt, "an assert of 5", run(0, 6))
}

fn show_steps(rt: &HostRuntime) -> anyhow::Result<()> {
    let own = [run(0, 0), run(0, 1)];
    show_ways(
        rt,
        "7: over direct, the same thread",
        plain(Kind::Direct),
        &own,
    )?;
    let other = [run(0, 0), run(1, 7)];
    show_ways(
        rt,
        "7: over direct, another thread",
        plain(Kind::Direct),
        &other,
    )?;
    let strong_15 = Setup {
        kind: Kind::PerCell,
        strong: 1 << 15,
    };
    show_ways(rt, "7: a store to the strong cell 15", strong_15, &own)?;
    let passed = [run(0, 0), run(1, 7), drain(0, 15)];
    show_ways(rt, "a strong cell and another thread", strong_15, &passed)?;
    show_ways(rt, "a strong cell 14", STRONG_14, &own)
}

fn show_drains(rt: &HostRuntime) -> anyhow::Result<()> {
    show_queue(rt, "3: a drain of thread 8", &[drain(8, 0)])?;
    show_queue(rt, "9: a drain of cell 16", &[drain(0, 16)])?;
    show_queue(rt, "9: a drain of cell 255", &[run(0, 0), drain(0, 255)])?;
    show_queue(rt, "12: nothing waits", &[drain(0, 15)])?;
    show_queue(rt, "12: another cell", &[run(0, 0), drain(0, 14)])?;
    show_queue(rt, "12: another thread's store", &[run(0, 0), drain(1, 15)])?;
    show_queue(
        rt,
        "12: a drain again",
        &[run(0, 0), drain(0, 15), drain(0, 15)],
    )?;
    let younger = [run(0, 0), run(0, 9), drain(0, 14), drain(0, 15)];
    show_queue(rt, "12: over queue, a younger store", &younger)?;
    show_ways(
        rt,
        "over per-cell, a younger store",
        plain(Kind::PerCell),
        &younger,
    )
}

fn show_ends(rt: &HostRuntime) -> anyhow::Result<()> {
    show_queue(rt, "no moves", &[])?;
    show_queue(rt, "14: a store waits at the end", &[run(0, 0)])?;
    show_queue(
        rt,
        "14: another store waits at the end",
        &[run(0, 0), run(3, 10), drain(0, 15)],
    )
}

pub(super) fn show(rt: &HostRuntime) -> anyhow::Result<()> {
    show_runs(rt)?;
    show_steps(rt)?;
    show_drains(rt)?;
    show_ends(rt)
}

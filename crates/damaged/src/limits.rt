// Programs of 128 lines, sixteen waiting stores and runs of 256 actions, and one more of each.
use super::showing::{show_behind, show_tape};
use super::tape::{
    Step, add_instruction, add_step, add_steps, begun, drain, fence, load, plain, run, store,
};
use recording::Kind;
use std::alloc::{AllocError, Global};

// A setup and that many fences of thread 0, which stays at label 0.
fn fences(heap: Global, kind: Kind, count: usize) -> Result<Vec<u8>, AllocError> {
    let mut tape = begun(heap, plain(kind))?;
    for _ in 0..count {
        add_instruction(&mut tape, fence([0, 0, 0]))?;
    }
    Ok(tape)
}

// That many fences, and these bytes behind them.
fn show_fences(rt: &HostRuntime, name: &str, count: usize, last: &[u8]) -> anyhow::Result<()> {
    let tape = fences(rt.alloc(), Kind::Queue, count)?;
    show_behind(rt, name, tape.as_slice(), last)
}

fn show_lines(rt: &HostRuntime) -> anyhow::Result<()> {
    let of_thread_8 = [20, 0, 2, 0, 8, 0, 0, 2, 0, 0, 0, 0, 0, 0, 0, 0, 0, 0, 0, 0];
    let of_form_5 = [20, 0, 2, 0, 0, 0, 0, 5, 0, 0, 0, 0, 0, 0, 0, 0, 0, 0, 0, 0];
    show_fences(rt, "128 instructions", 128, &[])?;
    show_fences(
        rt,
        "128 instructions, the last is run",
        128,
        &[6, 0, 3, 0, 0, 127],
    )?;
    show_fences(
        rt,
        "4: the instruction 128, of 128",
        128,
        &[6, 0, 3, 0, 0, 128],
    )?;
    show_fences(rt, "2: the last of 128 of thread 8", 127, &of_thread_8)?;
    show_fences(rt, "1: 129 instructions", 129, &[])?;
    show_fences(rt, "1: the last of 129 of thread 8", 128, &of_thread_8)?;
    show_fences(rt, "1: the last of 129 of form 5", 128, &of_form_5)?;
    show_fences(rt, "16: the last of 129 is cut", 128, &[20, 0, 2, 0, 0])?;
    show_fences(
        rt,
        "17: the last of 129 of length 21",
        128,
        &[21, 0, 2, 0, 0],
    )?;
    show_fences(rt, "18: 128 and a setup", 128, &[8, 0, 1, 0, 0, 0, 0, 0])
}

fn add_often(tape: &mut Vec<u8>, step: Step, times: usize) -> Result<(), AllocError> {
    for _ in 0..times {
        add_step(tape, step)?;
    }
    Ok(())
}

// Sixteen stores of thread 0 to cell 0 that wait, then these moves, then that many drains of cell 0.
fn show_waiting(rt: &HostRuntime, name: &str, steps: &[Step], drains: usize) -> anyhow::Result<()> {
    let mut tape = begun(rt.alloc(), plain(Kind::Queue))?;
    add_instruction(&mut tape, store([0, 0, 0], 0, 1))?;
    add_instruction(&mut tape, store([0, 0, 0], 16, 1))?;
    add_instruction(&mut tape, load([0, 0, 0], 0, 0))?;
    add_often(&mut tape, run(0, 0), 16)?;
    add_steps(&mut tape, steps)?;
    add_often(&mut tape, drain(0, 0), drains)?;
    show_tape(rt, name, tape.as_slice())
}

fn show_stores(rt: &HostRuntime) -> anyhow::Result<()> {
    show_waiting(rt, "sixteen waiting stores", &[], 16)?;
    show_waiting(rt, "12: a drain too many", &[], 17)?;
    show_waiting(rt, "14: a drain too few", &[], 15)?;
    show_waiting(rt, "11: seventeen waiting stores", &[run(0, 0)], 17)?;
    show_waiting(rt, "9 before 11", &[run(0, 1)], 16)?;
    show_waiting(rt, "a load from the sixteenth", &[run(0, 2)], 16)?;
    show_waiting(rt, "a drain makes room", &[drain(0, 0), run(0, 0)], 16)
}

// That many actions of thread 0, each a fence. Besides there is a store at the same label and a fence at another.
fn actions(heap: Global, kind: Kind, count: usize) -> Result<Vec<u8>, AllocError> {
    let mut tape = begun(heap, plain(kind))?;
    add_instruction(&mut tape, fence([0, 0, 0]))?;
    add_instruction(&mut tape, store([0, 0, 0], 0, 1))?;
    add_instruction(&mut tape, fence([0, 1, 0]))?;
    add_often(&mut tape, run(0, 0), count)?;
    Ok(tape)
}

// These moves behind that many actions.
fn show_actions(
    rt: &HostRuntime,
    name: &str,
    kind: Kind,
    count: usize,
    steps: &[Step],
) -> anyhow::Result<()> {
    let mut tape = actions(rt.alloc(), kind, count)?;
    add_steps(&mut tape, steps)?;
    show_tape(rt, name, tape.as_slice())
}

// The longest recording that gets a verdict, 5640 bytes, and one move more: 128 lines, 256 stores of thread 7, each drained.
fn show_longest(rt: &HostRuntime, name: &str, more: &[Step]) -> anyhow::Result<()> {
    let mut tape = fences(rt.alloc(), Kind::Direct, 127)?;
    add_instruction(&mut tape, store([7, 0, 0], 0, 1))?;
    for _ in 0..256 {
        add_steps(&mut tape, &[run(7, 127), drain(7, 0)])?;
    }
    add_steps(&mut tape, more)?;
    show_tape(rt, name, tape.as_slice())
}

pub(super) fn show(rt: &HostRuntime) -> anyhow::Result<()> {
    show_lines(rt)?;
    show_stores(rt)?;
    show_actions(rt, "6: 257 actions", Kind::Queue, 257, &[])?;
    show_actions(rt, "6: 65534 bytes", Kind::Queue, 10911, &[])?;
    let most = actions(rt.alloc(), Kind::Queue, 10911)?;
    show_behind(rt, "6: 65536 bytes", most.as_slice(), &[6, 0])?;
    show_actions(rt, "6: 65540 bytes", Kind::Queue, 10912, &[])?;
    show_actions(rt, "4 before 6", Kind::Queue, 256, &[run(1, 0)])?;
    show_actions(rt, "5 before 6", Kind::Queue, 256, &[run(0, 2)])?;
    let full = [run(0, 1), run(0, 0)];
    show_actions(rt, "6 before 7", Kind::Direct, 255, &full)?;
    show_actions(rt, "7 and not 6", Kind::Direct, 254, &full)?;
    show_actions(
        rt,
        "14: 256 actions, a store waits",
        Kind::Queue,
        255,
        &[run(0, 1)],
    )?;
    show_longest(rt, "the longest recording", &[])?;
    show_longest(rt, "6: the longest and a run", &[run(7, 127)])?;
    show_longest(rt, "12: the longest and a drain", &[drain(7, 0)])
}

// Records where their kind may not stand.
use super::showing::{show_behind, show_tape};
use super::tape::{begun, dekker, plain};
use recording::Kind;
use std::alloc::{AllocError, Global};

const SETUP: [u8; 8] = [8, 0, 1, 0, 1, 0, 0, 0];

const SETUP_OF_BUFFER_3: [u8; 8] = [8, 0, 1, 0, 3, 0, 0, 0];

const SETUP_NOT_ZERO: [u8; 8] = [8, 0, 1, 0, 1, 1, 0, 0];

const FENCE: [u8; 20] = [20, 0, 2, 0, 0, 0, 1, 2, 0, 0, 0, 0, 0, 0, 0, 0, 0, 0, 0, 0];

const FENCE_OF_THREAD_8: [u8; 20] = [20, 0, 2, 0, 8, 0, 1, 2, 0, 0, 0, 0, 0, 0, 0, 0, 0, 0, 0, 0];

const RUN: [u8; 6] = [6, 0, 3, 0, 0, 0];

const RUN_OF_THREAD_8: [u8; 6] = [6, 0, 3, 0, 8, 0];

const DRAIN: [u8; 6] = [6, 0, 4, 0, 0, 0];

// A setup, a fence and these bytes.
fn fenced(heap: Global, more: &[u8]) -> Result<Vec<u8>, AllocError> {
    let mut tape = begun(heap, plain(Kind::Queue))?;
    tape.extend_from_slice(&FENCE)?;
    tape.extend_from_slice(more)?;
    Ok(tape)
}

fn show_first(rt: &HostRuntime) -> anyhow::Result<()> {
    show_tape(rt, "an empty recording", &[])?;
    show_tape(rt, "nothing but a setup", &SETUP)?;
    show_tape(rt, "first a setup of buffer 3", &SETUP_OF_BUFFER_3)?;
    show_tape(rt, "first an instruction", &FENCE)?;
    show_tape(rt, "first an instruction of thread 8", &FENCE_OF_THREAD_8)?;
    show_tape(rt, "first a run", &RUN)?;
    show_tape(rt, "first a run of thread 8", &RUN_OF_THREAD_8)?;
    show_tape(rt, "first a drain", &DRAIN)?;
    show_tape(rt, "first a run that is cut", &[6, 0, 3, 0, 0])?;
    show_tape(rt, "first four zero bytes", &[0, 0, 0, 0])
}

fn show_setups(rt: &HostRuntime) -> anyhow::Result<()> {
    show_behind(rt, "a second setup", &SETUP, &SETUP)?;
    show_behind(rt, "a second setup of buffer 3", &SETUP, &SETUP_OF_BUFFER_3)?;
    show_behind(
        rt,
        "a second setup, its zero byte 1",
        &SETUP,
        &SETUP_NOT_ZERO,
    )?;
    show_behind(
        rt,
        "a second setup that is cut",
        &SETUP,
        &[8, 0, 1, 0, 3, 1, 0],
    )?;
    let added = fenced(rt.alloc(), &[])?;
    let added = added.as_slice();
    show_behind(rt, "a setup behind an instruction", added, &SETUP)?;
    show_behind(
        rt,
        "a setup of buffer 3 behind an instruction",
        added,
        &SETUP_OF_BUFFER_3,
    )?;
    show_late_setups(rt)
}

// Setups behind moves.
fn show_late_setups(rt: &HostRuntime) -> anyhow::Result<()> {
    let moved = fenced(rt.alloc(), &RUN)?;
    let moved = moved.as_slice();
    show_behind(rt, "a setup behind a run", moved, &SETUP)?;
    show_behind(
        rt,
        "a setup of buffer 3 behind a run",
        moved,
        &SETUP_OF_BUFFER_3,
    )?;
    let drained = dekker(rt.alloc())?;
    let drained = drained.as_slice();
    show_behind(rt, "a setup behind a drain", drained, &SETUP)?;
    show_behind(
        rt,
        "a setup behind a drain, its zero byte 1",
        drained,
        &SETUP_NOT_ZERO,
    )
}

fn show_others(rt: &HostRuntime) -> anyhow::Result<()> {
    show_behind(rt, "a run behind the setup", &SETUP, &RUN)?;
    show_behind(rt, "a drain behind the setup", &SETUP, &DRAIN)?;
    let added = fenced(rt.alloc(), &[])?;
    show_behind(
        rt,
        "a second instruction of thread 8",
        added.as_slice(),
        &FENCE_OF_THREAD_8,
    )?;
    let moved = fenced(rt.alloc(), &RUN)?;
    let moved = moved.as_slice();
    show_behind(rt, "an instruction behind a run", moved, &FENCE)?;
    show_behind(
        rt,
        "an instruction of thread 8 behind a run",
        moved,
        &FENCE_OF_THREAD_8,
    )?;
    let drained = dekker(rt.alloc())?;
    let drained = drained.as_slice();
    show_behind(rt, "an instruction behind a drain", drained, &FENCE)?;
    show_behind(
        rt,
        "an instruction that is cut behind a drain",
        drained,
        &[20, 0, 2, 0],
    )
}

pub(super) fn show(rt: &HostRuntime) -> anyhow::Result<()> {
    show_first(rt)?;
    show_setups(rt)?;
    show_others(rt)
}

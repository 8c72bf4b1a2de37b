// Printing a recording's name and what is printed of it.
use super::tape::dekker;
use recording::print_recording;
use std::io::Write;

// What is printed of the recording.
pub(super) fn show_text(rt: &HostRuntime, tape: &[u8]) -> anyhow::Result<()> {
    let mut page = [0; 2048];
    let count = print_recording(rt.alloc(), tape, &mut page)?;
    rt.stdout().write_all(&page[..count])?;
    Ok(())
}

pub(super) fn show_tape(rt: &HostRuntime, name: &str, tape: &[u8]) -> anyhow::Result<()> {
    println!(rt; "== {name}")?;
    show_text(rt, tape)
}

// These bytes, and more behind them.
pub(super) fn show_behind(
    rt: &HostRuntime,
    name: &str,
    front: &[u8],
    more: &[u8],
) -> anyhow::Result<()> {
    let mut tape = Vec::new(rt.alloc());
    tape.extend_from_slice(front)?;
    tape.extend_from_slice(more)?;
    show_tape(rt, name, tape.as_slice())
}

// The Dekker sample with another byte in one place.
pub(super) fn show_changed(
    rt: &HostRuntime,
    name: &str,
    at: usize,
    value: u8,
) -> anyhow::Result<()> {
    let mut tape = dekker(rt.alloc())?;
    if let Some(byte) = tape.get_mut(at) {
        *byte = value;
    }
    show_tape(rt, name, tape.as_slice())
}

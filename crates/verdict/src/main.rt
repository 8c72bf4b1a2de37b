// Judges the recording on standard input, and prints the verdict or the fault.
#![tactic(auto)]

use recording::print_recording;
use std::io::{Read, Write};

// the most bytes that are read; no recording that gets a verdict has as many
const MOST: u64 = 65536;

fn recorded(rt: &HostRuntime) -> anyhow::Result<Vec<u8>> {
    let mut bytes = Vec::new(rt.alloc());
    rt.stdin().take(MOST).read_to_end(&mut bytes)?;
    Ok(bytes)
}

fn run(rt: &HostRuntime) -> anyhow::Result<()> {
    let recording = recorded(rt)?;
    let mut page = [0; 2048];
    let count = print_recording(rt.alloc(), recording.as_slice(), &mut page)?;
    rt.stdout().write_all(&page[..count])?;
    Ok(())
}

fn main(rt: HostRuntime) -> anyhow::Result<()> {
    run(&rt)
}

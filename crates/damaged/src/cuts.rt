// Recordings that end too early or too late.
use super::showing::{show_behind, show_text};
use super::tape::dekker;
use recording::{judge_recording, print_recording};
use replay::Name;

// The Dekker sample, cut at every byte.
fn show_cuts(rt: &HostRuntime) -> anyhow::Result<()> {
    let tape = dekker(rt.alloc())?;
    let whole = tape.as_slice();
    for length in 0..=whole.len() {
        println!(rt; "== the first {length} bytes of Dekker over queue")?;
        show_text(rt, &whole[..length])?;
    }
    Ok(())
}

// The Dekker sample with more behind its last record.
fn show_more(rt: &HostRuntime) -> anyhow::Result<()> {
    let tape = dekker(rt.alloc())?;
    let whole = tape.as_slice();
    show_behind(rt, "one byte more", whole, &[6])?;
    show_behind(rt, "two bytes more", whole, &[6, 0])?;
    show_behind(rt, "three bytes more", whole, &[6, 0, 4])?;
    show_behind(rt, "the head of a drain more", whole, &[6, 0, 4, 0])?;
    show_behind(rt, "four zero bytes more", whole, &[0, 0, 0, 0])?;
    show_behind(rt, "three bytes more of no record", whole, &[255, 255, 255])?;
    show_behind(rt, "a drain more", whole, &[6, 0, 4, 0, 0, 0])
}

// A page with one byte too few, which is refused and not by a line.
fn show_short_page(rt: &HostRuntime) -> anyhow::Result<()> {
    println!(rt; "== a page of 2047 bytes")?;
    let tape = dekker(rt.alloc())?;
    let mut page = [0; 2047];
    match print_recording(rt.alloc(), tape.as_slice(), &mut page) {
        Ok(_) => println!(rt; "printed")?,
        Err(unprinted) => {
            let number = unprinted.number();
            println!(rt; "not printed {number}")?;
        }
    }
    Ok(())
}

// The reading call alone, with one place too few for the four names.
fn show_short_list(rt: &HostRuntime) -> anyhow::Result<()> {
    println!(rt; "== a list of 3 places")?;
    let tape = dekker(rt.alloc())?;
    let mut list = [Name::default(); 3];
    match judge_recording(rt.alloc(), tape.as_slice(), &mut list) {
        Ok(verdict) => println!(rt; "{verdict}")?,
        Err(failure) => println!(rt; "{failure}")?,
    }
    Ok(())
}

pub(super) fn show(rt: &HostRuntime) -> anyhow::Result<()> {
    show_cuts(rt)?;
    show_more(rt)?;
    show_short_page(rt)?;
    show_short_list(rt)
}

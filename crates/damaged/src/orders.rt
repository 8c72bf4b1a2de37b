// Which test comes first where two would refuse, and the six operations.
use super::moves::{show_ways, ways};
use super::showing::{show_tape, show_text};
use super::tape::{
    STRONG_14, Step, add_instruction, add_step, add_steps, assert, begun, drain, plain, run,
};
use recording::Kind;

fn show_tests(rt: &HostRuntime) -> anyhow::Result<()> {
    show_ways(rt, "3 before 4", plain(Kind::Queue), &[run(8, 255)])?;
    show_ways(rt, "3 before 9", plain(Kind::Queue), &[drain(8, 16)])?;
    show_ways(rt, "4 before 5", plain(Kind::Queue), &[run(1, 1)])?;
    let foreign = [run(0, 0), run(1, 2)];
    show_ways(rt, "4 before 7", plain(Kind::Direct), &foreign)?;
    let elsewhere = [run(0, 0), run(0, 2)];
    show_ways(rt, "5 before 7", plain(Kind::Direct), &elsewhere)?;
    let fenced = [run(0, 0), run(0, 9), run(0, 2)];
    show_ways(rt, "7 before 8", STRONG_14, &fenced)?;
    let outside = [run(0, 0), run(2, 8)];
    show_ways(rt, "7 before 9", plain(Kind::Direct), &outside)?;
    show_ways(rt, "9 and not 7", plain(Kind::Queue), &outside)
}

// A move, some bytes, and a move that is refused by 5.
fn show_between(rt: &HostRuntime, name: &str, first: Step, between: &[u8]) -> anyhow::Result<()> {
    let mut tape = ways(rt.alloc(), plain(Kind::Queue))?;
    add_step(&mut tape, first)?;
    tape.extend_from_slice(between)?;
    add_step(&mut tape, run(0, 6))?;
    show_tape(rt, name, tape.as_slice())
}

fn show_faults(rt: &HostRuntime) -> anyhow::Result<()> {
    show_between(rt, "two refused moves", run(0, 1), &[])?;
    show_between(rt, "a second move that is refused", run(0, 0), &[])?;
    show_between(rt, "a refused move, then kind 5", run(0, 1), &[6, 0, 5, 0])?;
    show_between(rt, "kind 5, then a refused move", run(0, 0), &[6, 0, 5, 0])?;
    show_between(rt, "a byte too many between moves", run(0, 0), &[0])
}

// Computes a and b to a value that is asserted to be the expected one.
fn show_operation(
    rt: &HostRuntime,
    number: u8,
    a: [u8; 4],
    b: [u8; 4],
    expected: [u8; 4],
) -> anyhow::Result<()> {
    println!(rt; "== operation {number}")?;
    let mut tape = begun(rt.alloc(), plain(Kind::Queue))?;
    tape.extend_from_slice(&[20, 0, 2, 0, 0, 0, 1, 3, 0, number, 1, 1])?;
    tape.extend_from_slice(&a)?;
    tape.extend_from_slice(&b)?;
    tape.extend_from_slice(&[20, 0, 2, 0, 0, 1, 2, 3, 1, 4, 0, 1, 0, 0, 0, 0])?;
    tape.extend_from_slice(&expected)?;
    add_instruction(&mut tape, assert([0, 2, 3], 1))?;
    add_steps(&mut tape, &[run(0, 0), run(0, 1), run(0, 2)])?;
    show_text(rt, tape.as_slice())
}

fn show_operations(rt: &HostRuntime) -> anyhow::Result<()> {
    show_operation(rt, 0, [255, 255, 255, 255], [2, 0, 0, 0], [1, 0, 0, 0])?;
    show_operation(rt, 0, [1, 2, 3, 4], [4, 3, 2, 1], [5, 5, 5, 5])?;
    show_operation(rt, 0, [1, 2, 3, 4], [4, 3, 2, 1], [5, 5, 5, 6])?;
    show_operation(rt, 1, [3, 0, 0, 0], [5, 0, 0, 0], [254, 255, 255, 255])?;
    show_operation(rt, 2, [15, 0, 0, 240], [252, 0, 0, 63], [12, 0, 0, 48])?;
    show_operation(rt, 3, [15, 0, 0, 240], [252, 0, 0, 63], [243, 0, 0, 207])?;
    show_operation(rt, 4, [0, 1, 0, 0], [0, 1, 0, 0], [1, 0, 0, 0])?;
    show_operation(rt, 4, [0, 1, 0, 0], [0, 0, 1, 0], [0, 0, 0, 0])?;
    show_operation(rt, 5, [255, 1, 0, 0], [0, 0, 1, 0], [1, 0, 0, 0])?;
    show_operation(rt, 5, [0, 0, 0, 128], [0, 0, 0, 1], [0, 0, 0, 0])
}

pub(super) fn show(rt: &HostRuntime) -> anyhow::Result<()> {
    show_tests(rt)?;
    show_faults(rt)?;
    show_operations(rt)
}

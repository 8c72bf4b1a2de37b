// Instructions with one field changed: a setup and one instruction, and no moves.
use super::showing::show_text;
use super::tape::{add_instruction, begun, plain};
use recording::Kind;

// where the fields stand in an instruction's record, behind its length and kind
const THREAD: usize = 0;

const LABEL: usize = 1;

const NEXT: usize = 2;

const FORM: usize = 3;

const REGISTER: usize = 4;

const OPERATION: usize = 5;

const TAG_A: usize = 6;

const TAG_B: usize = 7;

const A: usize = 8;

const B: usize = 12;

const LOAD: [u8; 16] = [0, 0, 1, 0, 3, 0, 1, 0, 5, 0, 0, 0, 0, 0, 0, 0];

const LOAD_BY_REGISTER: [u8; 16] = [0, 0, 1, 0, 3, 0, 0, 0, 7, 0, 0, 0, 0, 0, 0, 0];

const STORE: [u8; 16] = [0, 0, 1, 1, 0, 0, 1, 1, 5, 0, 0, 0, 9, 0, 0, 0];

const STORE_BY_REGISTERS: [u8; 16] = [0, 0, 1, 1, 0, 0, 0, 0, 7, 0, 0, 0, 7, 0, 0, 0];

const FENCE: [u8; 16] = [0, 0, 1, 2, 0, 0, 0, 0, 0, 0, 0, 0, 0, 0, 0, 0];

const COMPUTE: [u8; 16] = [0, 0, 1, 3, 3, 5, 1, 1, 5, 0, 0, 0, 9, 0, 0, 0];

const COMPUTE_BY_REGISTERS: [u8; 16] = [0, 0, 1, 3, 3, 5, 0, 0, 7, 0, 0, 0, 7, 0, 0, 0];

const ASSERT: [u8; 16] = [0, 0, 1, 4, 0, 0, 1, 0, 1, 0, 0, 0, 0, 0, 0, 0];

const ASSERT_BY_REGISTER: [u8; 16] = [0, 0, 1, 4, 0, 0, 0, 0, 7, 0, 0, 0, 0, 0, 0, 0];

fn show_field(
    rt: &HostRuntime,
    name: &str,
    fields: [u8; 16],
    at: usize,
    value: u8,
) -> anyhow::Result<()> {
    let mut fields = fields;
    if let Some(byte) = fields.get_mut(at) {
        *byte = value;
    }
    println!(rt; "== {name}, byte {at} is {value}")?;
    let mut tape = begun(rt.alloc(), plain(Kind::Queue))?;
    add_instruction(&mut tape, fields)?;
    show_text(rt, tape.as_slice())
}

// Every byte set to 255, one at a time.
fn show_bytes(rt: &HostRuntime, name: &str, fields: [u8; 16]) -> anyhow::Result<()> {
    for at in 0..fields.len() {
        show_field(rt, name, fields, at, 255)?;
    }
    Ok(())
}

// The last that is in range, and one past it.
fn show_ranges(rt: &HostRuntime) -> anyhow::Result<()> {
    show_field(rt, "load", LOAD, THREAD, 7)?;
    show_field(rt, "load", LOAD, THREAD, 8)?;
    show_field(rt, "load", LOAD, LABEL, 63)?;
    show_field(rt, "load", LOAD, LABEL, 64)?;
    show_field(rt, "load", LOAD, NEXT, 63)?;
    show_field(rt, "load", LOAD, NEXT, 64)?;
    show_field(rt, "fence", FENCE, THREAD, 8)?;
    show_field(rt, "fence", FENCE, LABEL, 64)?;
    show_field(rt, "fence", FENCE, NEXT, 64)?;
    show_field(rt, "fence", FENCE, FORM, 5)?;
    show_field(rt, "load", LOAD, FORM, 5)?;
    show_field(rt, "load", LOAD, REGISTER, 7)?;
    show_field(rt, "load", LOAD, REGISTER, 8)?;
    show_field(rt, "compute", COMPUTE, REGISTER, 7)?;
    show_field(rt, "compute", COMPUTE, REGISTER, 8)?;
    show_field(rt, "compute", COMPUTE, OPERATION, 0)?;
    show_field(rt, "compute", COMPUTE, OPERATION, 6)
}

fn show_tags(rt: &HostRuntime) -> anyhow::Result<()> {
    show_field(rt, "load", LOAD, TAG_A, 2)?;
    show_field(rt, "store", STORE, TAG_A, 2)?;
    show_field(rt, "store", STORE, TAG_B, 2)?;
    show_field(rt, "compute", COMPUTE, TAG_A, 2)?;
    show_field(rt, "compute", COMPUTE, TAG_B, 2)?;
    show_field(rt, "assert", ASSERT, TAG_A, 2)?;
    show_field(rt, "store, its value the register 9", STORE, TAG_B, 0)?;
    show_field(rt, "compute, its b the register 9", COMPUTE, TAG_B, 0)
}

// The register 8, and registers that are too high in each other byte.
fn show_registers(rt: &HostRuntime, name: &str, fields: [u8; 16], at: usize) -> anyhow::Result<()> {
    show_field(rt, name, fields, at, 0)?;
    show_field(rt, name, fields, at, 8)?;
    if at < 13 {
        show_field(rt, name, fields, at + 1, 1)?;
        show_field(rt, name, fields, at + 2, 1)?;
        show_field(rt, name, fields, at + 3, 1)?;
    }
    Ok(())
}

fn show_operands(rt: &HostRuntime) -> anyhow::Result<()> {
    show_registers(rt, "load by register", LOAD_BY_REGISTER, A)?;
    show_registers(rt, "store by registers", STORE_BY_REGISTERS, A)?;
    show_registers(rt, "store by registers", STORE_BY_REGISTERS, B)?;
    show_registers(rt, "compute by registers", COMPUTE_BY_REGISTERS, A)?;
    show_registers(rt, "compute by registers", COMPUTE_BY_REGISTERS, B)?;
    show_registers(rt, "assert by register", ASSERT_BY_REGISTER, A)
}

// A field that the form does not use is 1.
fn show_unused(rt: &HostRuntime) -> anyhow::Result<()> {
    show_field(rt, "load", LOAD, OPERATION, 1)?;
    show_field(rt, "load", LOAD, TAG_B, 1)?;
    show_field(rt, "load", LOAD, B, 1)?;
    show_field(rt, "store", STORE, REGISTER, 1)?;
    show_field(rt, "store", STORE, OPERATION, 1)?;
    show_field(rt, "fence", FENCE, REGISTER, 1)?;
    show_field(rt, "fence", FENCE, OPERATION, 1)?;
    show_field(rt, "fence", FENCE, TAG_A, 1)?;
    show_field(rt, "fence", FENCE, A, 1)?;
    show_field(rt, "fence", FENCE, TAG_B, 1)?;
    show_field(rt, "fence", FENCE, B, 1)?;
    show_field(rt, "assert", ASSERT, REGISTER, 1)?;
    show_field(rt, "assert", ASSERT, OPERATION, 1)?;
    show_field(rt, "assert", ASSERT, TAG_B, 1)?;
    show_field(rt, "assert", ASSERT, B, 1)
}

pub(super) fn show(rt: &HostRuntime) -> anyhow::Result<()> {
    show_ranges(rt)?;
    show_tags(rt)?;
    show_operands(rt)?;
    show_unused(rt)?;
    show_bytes(rt, "load", LOAD)?;
    show_bytes(rt, "store", STORE)?;
    show_bytes(rt, "fence", FENCE)?;
    show_bytes(rt, "compute", COMPUTE)?;
    show_bytes(rt, "assert", ASSERT)
}

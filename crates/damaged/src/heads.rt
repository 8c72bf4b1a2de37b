// Lengths, kinds and setups with one byte changed.
use super::showing::show_changed;

fn show_lengths(rt: &HostRuntime) -> anyhow::Result<()> {
    show_changed(rt, "setup of length 7", 0, 7)?;
    show_changed(rt, "setup of length 9", 0, 9)?;
    show_changed(rt, "setup of length 0", 0, 0)?;
    show_changed(rt, "setup of length 264", 1, 1)?;
    show_changed(rt, "instruction of length 19", 8, 19)?;
    show_changed(rt, "instruction of length 21", 8, 21)?;
    show_changed(rt, "instruction of length 276", 9, 1)?;
    show_changed(rt, "second instruction of length 21", 28, 21)?;
    show_changed(rt, "run of length 5", 88, 5)?;
    show_changed(rt, "run of length 7", 88, 7)?;
    show_changed(rt, "run of length 262", 89, 1)?;
    show_changed(rt, "drain of length 5", 112, 5)?;
    show_changed(rt, "drain of length 7", 112, 7)?;
    show_changed(rt, "drain of length 262", 113, 1)?;
    show_changed(rt, "last drain of length 7", 118, 7)
}

fn show_first_kinds(rt: &HostRuntime) -> anyhow::Result<()> {
    show_changed(rt, "setup of kind 0", 2, 0)?;
    show_changed(rt, "setup of kind 2", 2, 2)?;
    show_changed(rt, "setup of kind 5", 2, 5)?;
    show_changed(rt, "setup of kind 257", 3, 1)?;
    show_changed(rt, "instruction of kind 0", 10, 0)?;
    show_changed(rt, "instruction of kind 1", 10, 1)?;
    show_changed(rt, "instruction of kind 3", 10, 3)?;
    show_changed(rt, "instruction of kind 5", 10, 5)?;
    show_changed(rt, "instruction of kind 258", 11, 1)
}

fn show_last_kinds(rt: &HostRuntime) -> anyhow::Result<()> {
    show_changed(rt, "run of kind 0", 90, 0)?;
    show_changed(rt, "run of kind 2", 90, 2)?;
    show_changed(rt, "run of kind 4, a drain", 90, 4)?;
    show_changed(rt, "run of kind 5", 90, 5)?;
    show_changed(rt, "run of kind 259", 91, 1)?;
    show_changed(rt, "drain of kind 0", 114, 0)?;
    show_changed(rt, "drain of kind 3, a run", 114, 3)?;
    show_changed(rt, "drain of kind 5", 114, 5)?;
    show_changed(rt, "drain of kind 260", 115, 1)
}

fn show_setups(rt: &HostRuntime) -> anyhow::Result<()> {
    show_changed(rt, "buffer byte 0", 4, 0)?;
    show_changed(rt, "buffer byte 2", 4, 2)?;
    show_changed(rt, "buffer byte 3", 4, 3)?;
    show_changed(rt, "buffer byte 255", 4, 255)?;
    show_changed(rt, "zero byte 1", 5, 1)?;
    show_changed(rt, "zero byte 255", 5, 255)?;
    show_changed(rt, "strong cell 0", 6, 1)?;
    show_changed(rt, "strong cell 1", 6, 2)?;
    show_changed(rt, "strong cells 2 to 7", 6, 252)?;
    show_changed(rt, "strong cells 8 to 15", 7, 255)
}

pub(super) fn show(rt: &HostRuntime) -> anyhow::Result<()> {
    show_lengths(rt)?;
    show_first_kinds(rt)?;
    show_last_kinds(rt)?;
    show_setups(rt)
}

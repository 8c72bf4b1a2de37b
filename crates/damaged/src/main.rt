// Puts whole and damaged recordings together, and prints what the printing call says of each.
#![tactic(auto)]

mod cuts;
mod fields;
mod heads;
mod limits;
mod moves;
mod orders;
mod places;
mod showing;
mod tape;

fn run(rt: &HostRuntime) -> anyhow::Result<()> {
    cuts::show(rt)?;
    heads::show(rt)?;
    fields::show(rt)?;
    places::show(rt)?;
    moves::show(rt)?;
    orders::show(rt)?;
    limits::show(rt)
}

fn main(rt: HostRuntime) -> anyhow::Result<()> {
    run(&rt)
}

// A replay of a run of a program over a store buffer of any kind.
use super::state::State;
use program::Program;

#[derive(Drop)]
pub struct Replay<B> {
    program: Program,
    buffer: B,
    state: State,
}

mod judging;
mod making;
mod offering;
mod performing;

pub use performing::perform;

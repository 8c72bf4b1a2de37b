// Replays a run over any store buffer and judges it.
#![tactic(auto)]

mod actions;
mod calls;
mod happens_before;
mod judging;
mod names;
mod replaying;
mod state;
mod text;
mod thread;
mod turn;
mod verdicts;

pub use calls::{Answer, Call};
pub use names::{Name, Source};
pub use replaying::{Replay, perform};
pub use verdicts::{Verdict, Word};

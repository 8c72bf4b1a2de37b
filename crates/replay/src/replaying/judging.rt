// Judging what was replayed.
ghost use Rattle.std.specs.Prelude.{◌≡◌, not};
ghost use Rattle.buffers.specs.Lists.{nothing_waits};
ghost use Rattle.replay.specs.Standings.{standing};
ghost use Rattle.replay.specs.Verdicts.{JudgedHeld};

use super::super::names::Name;
use super::super::state::THREADS;
use super::super::verdicts::Verdict;
use super::Replay;
use buffers::StoreBuffer;
use refusal::Refusal;

impl<B: StoreBuffer> Replay<B> {
    // Judges the actions so far, and lists their order or a ring of them at the front of the list; its later places are as before.
    // Refused while a store waits, then where the list has fewer places than there are actions; the list is then as before. It is the
    // caller's memory, so the verdict says how much of it is written.
    pub fn judge(&self, list: &mut [Name]) -> Result<Verdict, Refusal>
        ensures { JudgedHeld (standing B.StoreBuffer self.now).held list.old result list.new }
    {
        if self.store_waits() {
            return Err(Refusal::StoreWaits);
        }
        self.state.judge(list)
    }

    // Whether a store of any thread waits.
    fn store_waits(&self) -> bool
        ensures { result ≡ not (nothing_waits (B.StoreBuffer.lists self.now.buffer)) }
    {
        (0..THREADS).any(|thread| self.buffer.waiting(thread) > 0)
    }
}

// The calls of a replay as a list has them, and their answers.
ghost use Rattle.std.specs.Prelude.{◌≡◌};
ghost use Rattle.replay.specs.Texts.{answer_number};

use super::names::Name;
use super::verdicts::Verdict;
use ledger::Move;
use refusal::Refusal;

#[derive(Clone, Copy)]
pub enum Call {
    // a move is offered
    Offer(Move),
    StartOver,
    // the actions are judged into a list of so many places
    Judge { places: usize },
}

#[derive(Drop)]
pub enum Answer {
    // the move was accepted: the value loaded, stored, drained, computed or asserted, 0 for a fence
    Moved(u32),
    StartedOver,
    // the verdict, and the order or the ring that it lists
    Judged { verdict: Verdict, list: Vec<Name> },
    // the move or the judgement was refused
    Refused(Refusal),
}

impl Answer {
    // The number by which the answer is reported: a refusal's own, and 0 for all that was not refused. A call, as a refusal's number is.
    pub fn number(&self) -> u8
        ensures { result ≡ answer_number self.now }
    {
        match self {
            Answer::Refused(refusal) => refusal.number(),
            Answer::Moved(_) | Answer::StartedOver | Answer::Judged { .. } => 0,
        }
    }
}

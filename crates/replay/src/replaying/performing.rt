// Performing whole lists of calls.
ghost use Rattle.std.specs.Prelude.{IfOk};
ghost use Rattle.program.specs.Programs.{lines_of};
ghost use Rattle.replay.specs.Performed.{JudgedAs};
ghost use Rattle.replay.specs.Standings.{AnsweredOn, standing};
ghost use Rattle.replay.specs.Truth.{VerdictsTrue};

use super::super::actions::MOST;
use super::super::calls::{Answer, Call};
use super::super::names::Name;
use super::Replay;
use buffers::StoreBuffer;
use program::Program;
use std::alloc::{AllocError, Global};

// Makes a replay of the program over the buffer, performs the calls in their order, and answers all their answers. That these are true is
// this call's contract.
pub fn perform<B: StoreBuffer + Drop>(
    heap: Global,
    program: Program,
    buffer: B,
    calls: &[Call],
) -> Result<Vec<Answer>, AllocError>
    ensures { IfOk result (λ answers. VerdictsTrue (B.StoreBuffer.rules buffer) (lines_of program) calls.now answers.items) }
{
    let mut replay = Replay::new(heap, program, buffer)?;
    let mut answers = Vec::new(heap);
    for call in calls {
        let answer = replay.answer(heap, *call)?;
        answers.push(answer)?;
    }
    Ok(answers)
}

impl<B: StoreBuffer> Replay<B> {
    // Performs one call.
    fn answer(&mut self, heap: Global, call: Call) -> Result<Answer, AllocError>
        ensures { IfOk result (λ answer. AnsweredOn (standing B.StoreBuffer self.old) call answer (standing B.StoreBuffer self.new)) }
    {
        match call {
            Call::Offer(offered) => Ok(
                self.offer(offered)
                    .map_or_else(Answer::Refused, Answer::Moved),
            ),
            Call::StartOver => {
                self.start_over();
                Ok(Answer::StartedOver)
            }
            Call::Judge { places } => self.judged(heap, places),
        }
    }

    // Judges into a list of so many places, of which no more than 256 can matter.
    fn judged(&self, heap: Global, places: usize) -> Result<Answer, AllocError>
        ensures { IfOk result (JudgedAs (standing B.StoreBuffer self.now).held places) }
    {
        let mut list = vec![in heap; Name::default(); places.min(MOST)]?;
        match self.judge(&mut list) {
            Ok(verdict) => {
                list.truncate(verdict.entries);
                Ok(Answer::Judged { verdict, list })
            }
            Err(refusal) => Ok(Answer::Refused(refusal)),
        }
    }
}

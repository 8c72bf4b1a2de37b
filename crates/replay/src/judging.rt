// The judgement of a run: an order of its actions, or the ring that forbids one.
ghost use Rattle.std.specs.Prelude.{◌≡◌, ℕ, ◌<◌, ◌≤◌, ◌++◌, map, length, drop, slice_index};
ghost use Rattle.replay.specs.GraphLaws.{named};
ghost use Rattle.replay.specs.Verdicts.{JudgedIn};
ghost use Rattle.replay.specs.Views.{present_of};

use super::actions::MOST;
use super::happens_before::HappensBefore;
use super::names::Name;
use super::state::State;
use super::verdicts::{Verdict, Word};
use arrayvec::ArrayVec;
use graph::{Written, order_or_ring};
use refusal::Refusal;

// Writes the names of these numbers at the front of the list, place by place: after `iter_mut` of a slice a proof knows no element.
fn write(names: &[Name], numbers: &[usize], list: &mut [Name])
    requires below { (k : ℕ) → k < length numbers.now → slice_index numbers.now k < length names.now }
    requires room { length numbers.now ≤ length list.old }
    ensures { list.new ≡ map (named names.now) numbers.now ++ drop (length numbers.now) list.old }
{
    for (place, number) in numbers.iter().enumerate() {
        list[place] = names[*number];
    }
}

impl State {
    // Judges the actions, and lists their order or a ring of them at the front of the list. A list with fewer places than there are
    // actions is refused and is as before.
    pub(crate) fn judge(&self, list: &mut [Name]) -> Result<Verdict, Refusal>
        ensures { JudgedIn (present_of self.now) list.old result list.new }
    {
        if list.len() < self.count() {
            return Err(Refusal::TooShort);
        }
        let mut names = ArrayVec::new();
        self.names(&mut names);
        let graph = HappensBefore {
            state: self,
            names: &names,
        };
        let mut places = [0; MOST];
        let numbers = &mut places[..list.len().min(MOST)];
        let written = order_or_ring(&graph, numbers).ok_or(Refusal::TooShort)?;
        // a conversion would be to a pair, which is no type of this crate
        let (word, entries) = match written {
            Written::Order(entries) => (Word::Sequential, entries),
            Written::Ring(entries) => (Word::Violation, entries),
        };
        write(&names, &numbers[..entries], list);
        Ok(Verdict {
            word,
            entries,
            delayed: self.delaying(),
        })
    }
}

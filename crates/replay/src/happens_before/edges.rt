// Whether an edge joins two actions is told from the two alone.
ghost use Rattle.std.specs.Prelude.{◌≡◌, length};
ghost use Rattle.graph.specs.Laws.{among};
ghost use Rattle.ledger.specs.Edges.{program_order, reads_from};
ghost use Rattle.present.specs.Joins.{joined_in, over_source, source_overwritten};
ghost use Rattle.replay.specs.GraphLaws.{happens_laws, named_joined};
ghost use Rattle.replay.specs.Names.{name_of, source_of};
ghost use Rattle.replay.specs.Views.{noted_of, present_of};

use super::super::actions::{Access, Action};
use super::super::names::{Name, Source};
use super::super::state::State;
use super::HappensBefore;
use graph::Graph;

impl Name {
    // Whether the other is the next action of the same thread.
    fn precedes(self, other: Name) -> bool
        ensures { result ≡ program_order (name_of self) (name_of other) }
    {
        self.thread == other.thread
            && self.position < other.position
            && other.position - self.position == 1
    }
}

impl Action {
    // Whether it is a store that overwrote in memory what the source stands for.
    fn overwrote(self, source: Source) -> bool
        ensures { result ≡ over_source (source_of source) (noted_of self).action.access (noted_of self).over }
    {
        match self.access {
            Access::Stores { .. } => self.over == Some(source),
            _ => false,
        }
    }

    // Whether it is a load from that action's store.
    fn reads_from(self, name: Name) -> bool
        ensures { result ≡ reads_from (name_of name) (noted_of self).action.access }
    {
        match self.access {
            Access::Loads { source, .. } => source == Some(name),
            _ => false,
        }
    }

    // Whether it is a load, and the other a store to its cell that overwrote its source.
    fn overwritten_by(self, other: Action) -> bool
        ensures { result ≡ source_overwritten (noted_of self).action.access (noted_of other) }
    {
        match (self.access, other.access) {
            (Access::Loads { cell, source }, Access::Stores { cell: to }) => to == cell
                && other.overwrote(source),
            _ => false,
        }
    }
}

impl State {
    // Whether an edge leads from one action to another.
    pub(crate) fn joined(&self, from: Name, to: Name) -> bool
        ensures { result ≡ joined_in (present_of self.now) (name_of «from») (name_of to) }
    {
        let Some(first) = self.action(from) else {
            return false;
        };
        let Some(second) = self.action(to) else {
            return false;
        };
        from.precedes(to)
            || second.overwrote(Some(from))
            || second.reads_from(from)
            || first.overwritten_by(second)
    }
}

impl Graph for HappensBefore<'_> {
    ghost size = { λ g. length g.names.now };

    ghost joins = { λ g. among (length g.names.now) (named_joined (present_of g.state.now) g.names.now) };

    ghost laws = { happens_laws };

    fn nodes(&self) -> usize {
        self.names.len()
    }

    fn edge(&self, from: usize, to: usize) -> bool {
        from < self.names.len()
            && to < self.names.len()
            && self.state.joined(self.names[from], self.names[to])
    }
}

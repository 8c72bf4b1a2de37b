// Graphs of up to 256 numbered nodes, and what searches find in one. Each search is written and proved once,
// for every graph that keeps the meaning below.
#![tactic(auto)]

ghost use Rattle.std.specs.Prelude.{◌≡◌, ℕ, Bool};
ghost use Rattle.graph.specs.Laws.{Laws};

mod ordering;
mod search;
#[cfg(test)]
mod tests;

pub use ordering::{Written, order_or_ring};
pub use search::reached;

// A graph, by its number of nodes and by which of them an edge joins.
pub trait Graph {
    // How many nodes there are. They are numbered from 0.
    ghost size: { Self → ℕ };

    // Whether an edge leads from the first node to the second.
    ghost joins: { Self → ℕ → ℕ → Bool };

    // What every graph shows of the two.
    ghost laws: { Laws size joins };

    // The number of nodes.
    fn nodes(&self) -> usize
        ensures { result ≡ size self.now };

    // Whether an edge leads from one node to another. Any numbers may be asked of: a number that is no node has no edge.
    fn edge(&self, from: usize, to: usize) -> bool
        ensures { result ≡ joins self.now from to };
}

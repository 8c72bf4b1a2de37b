// What can be reached from a node: a search outward, which asks of each ordered pair of nodes at most once.
ghost use Rattle.std.specs.Prelude.{◌≡◌, ℕ, true, false, slice_index_or};
ghost use Rattle.graph.specs.Chains.{Chain};

use super::Graph;
use arrayvec::ArrayVec;

// Marks exactly the nodes to which a chain of one or more edges leads from `start`.
pub fn reached<G: Graph>(graph: &G, start: usize) -> [bool; 256]
    ensures sound { (node : ℕ) → slice_index_or result node false ≡ true → Chain (G.Graph.joins graph.now) start node }
    ensures complete { (node : ℕ) → Chain (G.Graph.joins graph.now) start node → slice_index_or result node false ≡ true }
{
    let mut marks = [false; 256];
    // `start`, then the nodes found, in the order in which they are found: their edges are followed in that order.
    let mut found = ArrayVec::<usize, 257>::new();
    found.push(start);
    let mut next = 0;
    // By place, since the list grows while it is gone through.
    while next < found.len() {
        let from = found[next];
        next += 1;
        // The graph has numbers of nodes, and no list of them.
        for to in 0..graph.nodes() {
            if !marks[to] && graph.edge(from, to) {
                marks[to] = true;
                // The edges out of `start` are followed at the beginning.
                if to != start {
                    found.push(to);
                }
            }
        }
    }
    marks
}

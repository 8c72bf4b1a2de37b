// What the searches find in graphs whose answers are known.
ghost use Rattle.std.specs.Prelude.{ℕ, Bool, ◌≡◌, ◌+◌, ◌<◌, ◌≤◌, ◌&&◌, ◌||◌, ◌==◌};
ghost use Rattle.graph.specs.Laws.{among, among_laws};

use super::*;
use std::cell::Cell;

// Which nodes an edge leads from and to, however many nodes there are.
trait Rule {
    // Whether an edge leads from the first node to the second.
    ghost leads: { Self → ℕ → ℕ → Bool };

    fn leads(&self, from: usize, to: usize) -> bool
        requires from_room { from < 256 }
        requires to_room { to < 256 }
        ensures { result ≡ leads self.now from to };
}

// A graph of so many nodes with the edges of a rule.
#[derive(Drop)]
struct Ruled<R> {
    size: usize,
    rule: R,
    ghost few: { size ≤ 256 },
}

impl<R: Rule> Graph for Ruled<R> {
    ghost size = { λ ruled. ruled.size };

    ghost joins = { λ ruled. among ruled.size (R.Rule.leads ruled.rule) };

    ghost laws = { among_laws (λ ruled. ruled.size) (λ ruled. R.Rule.leads ruled.rule) (λ ruled. ruled.few) };

    fn nodes(&self) -> usize {
        self.size
    }

    fn edge(&self, from: usize, to: usize) -> bool {
        from < self.size && to < self.size && self.rule.leads(from, to)
    }
}

// Nodes in a row, each with an edge to the next. One more edge leads back to the first from the last of the first `ring`
// nodes, which makes those a ring. It may have no nodes.
#[derive(Drop)]
struct Row {
    ring: usize,
}

impl Rule for Row {
    ghost leads = { λ row from to. (to == from + 1) || (to == 0 && from + 1 == row.ring) };

    fn leads(&self, from: usize, to: usize) -> bool {
        to == from + 1 || to == 0 && from + 1 == self.ring
    }
}

// Stairs, with an edge from each node to the one two below it, and from the node `up` to the one two above it. As of any
// graph, any number may be asked of.
#[derive(Drop)]
struct Stairs {
    up: usize,
}

impl Rule for Stairs {
    ghost leads = { λ stairs from to. (from == to + 2) || (from == stairs.up && to == from + 2) };

    fn leads(&self, from: usize, to: usize) -> bool {
        from == to + 2 || from == self.up && to == from + 2
    }
}

fn in_row(size: usize, ring: usize) -> Ruled<Row>
    requires { size ≤ 256 }
{
    Ruled {
        size,
        rule: Row { ring },
    }
}

fn on_stairs(size: usize, up: usize) -> Ruled<Stairs>
    requires { size ≤ 256 }
{
    Ruled {
        size,
        rule: Stairs { up },
    }
}

// A graph that remembers its questions: which ordered pairs of the first 8 nodes were asked of, and whether one was asked
// of twice.
#[derive(Drop)]
struct Heard<G> {
    graph: G,
    pairs: Cell<[bool; 64]>,
    twice: Cell<bool>,
}

impl<G> Heard<G> {
    fn new(graph: G) -> Self {
        Heard {
            graph,
            pairs: Cell::new([false; 64]),
            twice: Cell::new(false),
        }
    }

    fn hear(&self, from: usize, to: usize) {
        if from < 8 && to < 8 {
            let mut pairs = self.pairs.get();
            if pairs[8 * from + to] {
                self.twice.set(true);
            }
            pairs[8 * from + to] = true;
            self.pairs.set(pairs);
        }
    }
}

impl<G: Graph> Graph for Heard<G> {
    ghost size = { λ heard. G.Graph.size heard.graph };

    ghost joins = { λ heard. G.Graph.joins heard.graph };

    ghost laws = { record { few = λ heard. G.Graph.laws.few heard.graph; inside = λ heard. G.Graph.laws.inside heard.graph } };

    fn nodes(&self) -> usize {
        self.graph.nodes()
    }

    fn edge(&self, from: usize, to: usize) -> bool {
        self.hear(from, to);
        self.graph.edge(from, to)
    }
}

#[test]
fn an_empty_graph_reaches_nothing(rt: HostRuntime) {
    assert!(rt; reached(&in_row(0, 0), 0) == [false; 256]);
}

#[test]
fn a_path_reaches_what_comes_later(rt: HostRuntime) {
    let path = in_row(256, 0);
    let mut later = [true; 256];
    later[0] = false;
    assert!(rt; reached(&path, 0) == later);
    assert!(rt; reached(&path, 255) == [false; 256]);
}

#[test]
fn a_ring_reaches_its_start(rt: HostRuntime) {
    let mut ring = [false; 256];
    ring[0] = true;
    ring[1] = true;
    ring[2] = true;
    assert!(rt; reached(&in_row(3, 3), 1) == ring);
}

#[test]
fn no_node_reaches_nothing(rt: HostRuntime) {
    let ring = in_row(256, 256);
    assert!(rt; reached(&ring, 256) == [false; 256]);
}

// The search comes back to its start while there are nodes that it has not found yet.
#[test]
fn no_pair_is_asked_twice(rt: HostRuntime) {
    let heard = Heard::new(in_row(8, 3));
    assert!(rt; reached(&heard, 1)[1]);
    assert!(rt; heard.pairs.get()[8 + 7]);
    assert!(rt; !heard.twice.get());
}

#[test]
fn an_empty_graph_has_an_empty_order(rt: HostRuntime) {
    let mut list = [7; 2];
    assert!(rt; order_or_ring(&in_row(0, 0), &mut list) == Some(Written::Order(0)));
    assert!(rt; list == [7; 2]);
}

#[test]
fn a_list_that_is_too_short_is_refused(rt: HostRuntime) {
    let mut list = [7; 2];
    assert!(rt; order_or_ring(&in_row(3, 3), &mut list) == None);
    assert!(rt; list == [7; 2]);
}

#[test]
fn a_path_is_its_own_order(rt: HostRuntime) {
    let mut list = [7; 257];
    assert!(rt; order_or_ring(&in_row(256, 0), &mut list) == Some(Written::Order(256)));
    assert!(rt; list[..256].iter().copied().eq(0..256));
    assert!(rt; list[256] == 7);
}

#[test]
fn the_lowest_ready_node_comes_first(rt: HostRuntime) {
    let mut list = [7; 6];
    assert!(rt; order_or_ring(&on_stairs(5, 5), &mut list) == Some(Written::Order(5)));
    assert!(rt; list == [3, 1, 4, 2, 0, 7]);
}

#[test]
fn a_ring_starts_at_its_lowest_node(rt: HostRuntime) {
    let mut list = [7; 5];
    assert!(rt; order_or_ring(&in_row(5, 3), &mut list) == Some(Written::Ring(3)));
    assert!(rt; list == [0, 1, 2, 7, 7]);
}

// The lowest node waits for the ring and is not on it.
#[test]
fn a_ring_may_lie_behind_other_nodes(rt: HostRuntime) {
    let mut list = [7; 5];
    assert!(rt; order_or_ring(&on_stairs(5, 2), &mut list) == Some(Written::Ring(2)));
    assert!(rt; list == [2, 4, 7, 7, 7]);
}

#[test]
fn a_node_joined_to_itself_is_a_ring(rt: HostRuntime) {
    let mut list = [7; 1];
    assert!(rt; order_or_ring(&in_row(1, 1), &mut list) == Some(Written::Ring(1)));
    assert!(rt; list == [0]);
}

#[test]
fn an_order_asks_no_pair_twice(rt: HostRuntime) {
    let heard = Heard::new(in_row(8, 0));
    let mut list = [0; 8];
    assert!(rt; order_or_ring(&heard, &mut list) == Some(Written::Order(8)));
    assert!(rt; heard.pairs.get() == [true; 64]);
    assert!(rt; !heard.twice.get());
}

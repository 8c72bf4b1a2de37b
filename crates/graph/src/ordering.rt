// An order of all nodes in which every edge leads onward, or a ring of nodes, which is why there is no such order. Each
// node that is not placed yet is ready, or waits for its blocker, the lowest node that is not placed and has an edge to it.
// The blockers only move up, so that each ordered pair of nodes is asked of at most once; and where every node that is left
// has a blocker, the way back from blocker to blocker comes to a ring.
ghost use Rattle.std.specs.Prelude.{◌≡◌, ℕ, ◌+◌, ◌<◌, ◌≤◌, false, not, length, drop, position, replicate, slice_index_or};
ghost use Rattle.graph.specs.declared.ordering.Standing.TheVariants.{Placed};
ghost use Rattle.graph.specs.Placing.{is_placed, is_ready, marks, Passed, Stands, Movable, Blocked, Begun, NoneReady, Unplaced};
ghost use Rattle.graph.specs.Rings.{blocker_of, Closed, OnRing, Turn, Backward};
ghost use Rattle.graph.specs.Sorting.{Next, Answered};

use super::Graph;
use arrayvec::ArrayVec;

// What stands at the front of the list, and how many nodes that are.
#[derive(Clone, Copy, PartialEq, Eq)]
pub enum Written {
    Order(usize),
    Ring(usize),
}

// How a node stands: in the order; ready, since every node with an edge to it is there; or behind its blocker, whose number is a byte, since
// there are at most 256 nodes: so the standings of all take up little.
#[derive(Clone, Copy, PartialEq, Eq, Default)]
enum Standing {
    // The default is what the unused places of a list hold.
    #[default]
    Placed,
    Ready,
    Behind(u8),
}

// The nodes placed so far, in their order, and how each node stands. The graph is lent to each call and not held: the search for the
// lowest node, what is stuck and the ring in it know no graph, and a type with its lifetime would be no plainer.
#[derive(Drop)]
struct Sorting {
    order: ArrayVec<usize, 256>,
    standings: ArrayVec<Standing, 256>,
}

// Nodes none of which is ready: each that is not placed stands behind another.
#[derive(Drop)]
struct Stuck {
    standings: ArrayVec<Standing, 256>,
    ghost closed: { Closed standings.items },
}

// A ring: its lowest node, and how many nodes it has.
#[derive(Clone, Copy)]
struct Round {
    lowest: usize,
    count: usize,
}

// Writes an order of all nodes or a ring at the front of the list, and leaves the later places. At each place of the
// order stands the lowest of the nodes that are not placed before it while every node with an edge to them is. In a ring
// an edge leads from each node to the next and from the last to the first, which is the lowest. A list with fewer places
// than there are nodes is refused, `None`, and is as before. The list is the caller's memory, so the answer says how much of it is written.
pub fn order_or_ring<G: Graph>(graph: &G, list: &mut [usize]) -> Option<Written>
    ensures { Answered (G.Graph.joins graph.now) (G.Graph.size graph.now) list.old list.new result }
{
    let size = graph.nodes();
    if list.len() < size {
        return None;
    }
    let sorting = Sorting::new(graph);
    match sorting.lowest_unplaced() {
        None => {
            list[..size].copy_from_slice(&sorting.order);
            Some(Written::Order(size))
        }
        Some(start) => {
            let Sorting { standings, .. } = sorting;
            let stuck = Stuck { standings };
            let ring = stuck.ring_of(stuck.on_ring(start));
            stuck.write_back(ring, list);
            Some(Written::Ring(ring.count))
        }
    }
}

// How a node stands before any is placed.
fn first_standing<G: Graph>(graph: &G, node: usize) -> Standing
    ensures unplaced { is_placed result ≡ false }
    ensures stands { Stands (G.Graph.joins graph.now) (G.Graph.size graph.now) (replicate (G.Graph.size graph.now) false) node result }
{
    let mut nodes = 0..graph.nodes();
    match nodes.find(|first| graph.edge(*first, node)) {
        Some(first) => Standing::Behind(first as u8),
        None => Standing::Ready,
    }
}

impl Sorting {
    // Places nodes as long as one is ready.
    fn new<G: Graph>(graph: &G) -> Self
        ensures begun { Begun (G.Graph.joins graph.now) (G.Graph.size graph.now) result }
        ensures stuck { NoneReady result.standings.items }
    {
        let mut standings = ArrayVec::new();
        for place in 0..graph.nodes() {
            standings.push(first_standing(graph, place));
        }
        let mut sorting = Sorting {
            order: ArrayVec::new(),
            standings,
        };
        while let Some(node) = sorting.lowest_ready() {
            sorting.place(graph, node);
        }
        sorting
    }

    // Puts the node at the end of the order, and moves the blockers that stood at it.
    fn place<G: Graph>(&mut self, graph: &G, node: usize)
        requires begun { Begun (G.Graph.joins graph.now) (G.Graph.size graph.now) self.old }
        requires next { Next (G.Graph.joins graph.now) (G.Graph.size graph.now) self.old.order.items node }
        ensures begun { Begun (G.Graph.joins graph.now) (G.Graph.size graph.now) self.new }
        ensures counted { length self.new.order.items ≡ length self.old.order.items + 1 }
    {
        self.order.push(node);
        self.standings[node] = Standing::Placed;
        self.move_up(graph, node as u8);
    }

    // Moves every blocker that stands at `at` up, to the lowest node from there on that blocks.
    fn move_up<G: Graph>(&mut self, graph: &G, at: u8)
        requires sized { length self.old.standings.items ≡ G.Graph.size graph.now }
        requires movable { (v : ℕ) → v < G.Graph.size graph.now
            → Movable (G.Graph.joins graph.now) (G.Graph.size graph.now) (marks self.old.standings.items) at v (slice_index_or self.old.standings.items v Placed) }
        ensures order { self.new.order ≡ self.old.order }
        ensures placed { marks self.new.standings.items ≡ marks self.old.standings.items }
        ensures blocked { Blocked (G.Graph.joins graph.now) (G.Graph.size graph.now) self.new.standings.items }
    {
        // By number: while a node moves, the graph and the standings of the others are asked.
        for node in 0..graph.nodes() {
            if self.standings[node] == Standing::Behind(at) {
                self.standings[node] = self.standing_from(graph, at as usize, node);
            }
        }
    }

    // How a node that is not placed stands, where none below `from` blocks it.
    fn standing_from<G: Graph>(&self, graph: &G, from: usize, node: usize) -> Standing
        requires sized { length self.now.standings.items ≡ G.Graph.size graph.now }
        requires passed { Passed (G.Graph.joins graph.now) (marks self.now.standings.items) node from }
        ensures unplaced { is_placed result ≡ false }
        ensures stands { Stands (G.Graph.joins graph.now) (G.Graph.size graph.now) (marks self.now.standings.items) node result }
    {
        let mut nodes = from..graph.nodes();
        match nodes.find(|blocker| !self.is_placed(*blocker) && graph.edge(*blocker, node)) {
            Some(blocker) => Standing::Behind(blocker as u8),
            None => Standing::Ready,
        }
    }

    // Whether the node is placed.
    fn is_placed(&self, node: usize) -> bool
        requires { node < length self.now.standings.items }
        ensures { result ≡ slice_index_or (marks self.now.standings.items) node false }
    {
        self.standings[node] == Standing::Placed
    }

    // The lowest node that is ready.
    fn lowest_ready(&self) -> Option<usize>
        ensures { result ≡ position is_ready self.now.standings.items }
    {
        self.standings
            .iter()
            .position(|standing| *standing == Standing::Ready)
    }

    // The lowest node that is not placed. By number, as the search for a blocker asks.
    fn lowest_unplaced(&self) -> Option<usize>
        ensures { result ≡ position (λ x. not (is_placed x)) self.now.standings.items }
    {
        let mut nodes = 0..self.standings.len();
        nodes.find(|node| !self.is_placed(*node))
    }
}

impl Stuck {
    // The node that the node stands behind.
    fn blocker(&self, node: usize) -> usize
        requires { Unplaced self.now.standings.items node }
        ensures value { result ≡ blocker_of self.now.standings.items node }
        ensures unplaced { Unplaced self.now.standings.items result }
    {
        match self.standings[node] {
            Standing::Behind(blocker) => blocker as usize,
            _ => unreachable!(),
        }
    }

    // The first node that the way back from `start` comes to for the second time.
    fn on_ring(&self, start: usize) -> usize
        requires { Unplaced self.now.standings.items start }
        ensures { OnRing self.now.standings.items result }
    {
        let mut seen = [false; 256];
        let mut node = start;
        while !seen[node] {
            seen[node] = true;
            node = self.blocker(node);
        }
        node
    }

    // The ring that `start` is on, by a walk back until it stands again. No list holds a ring, so its nodes are counted on
    // the way.
    fn ring_of(&self, start: usize) -> Round
        requires { OnRing self.now.standings.items start }
        ensures { Turn self.now.standings.items result.lowest result.count }
    {
        let mut ring = Round {
            lowest: start,
            count: 1,
        };
        let mut node = self.blocker(start);
        while node != start {
            ring.lowest = ring.lowest.min(node);
            ring.count += 1;
            node = self.blocker(node);
        }
        ring
    }

    // Writes the ring at the front of the list, from its last node, the blocker of the lowest, back to the lowest.
    fn write_back(&self, ring: Round, list: &mut [usize])
        requires turn { Turn self.now.standings.items ring.lowest ring.count }
        requires room { ring.count ≤ length list.old }
        ensures written { Backward self.now.standings.items ring.lowest ring.count list.new }
        ensures later { drop ring.count list.new ≡ drop ring.count list.old }
    {
        let mut node = ring.lowest;
        // By place: after `iter_mut` of a slice a proof knows no element.
        for place in (0..ring.count).rev() {
            node = self.blocker(node);
            list[place] = node;
        }
    }
}

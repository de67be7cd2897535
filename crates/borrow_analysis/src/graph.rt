// Graphs as they are handed over, checks 12 to 14, and the graphs that these accept. Assumes nothing.
ghost use Rattle.std.specs.Prelude.{◌≡◌, not, ◌+◌, ◌/◌, ◌^◌, ◌<◌, ◌≤◌, true, ltb, length, None, Err, IfSome, IfOk, OnOk, IfErr};
ghost use Rattle.std.specs.List.{find, range_with_len};
ghost use Rattle.base.specs.Sizes.{max_locals};
ghost use Rattle.base.specs.Refusals.{Accepted, check, check_whole};
ghost use Rattle.dataflow_domains.specs.Sets.{mask};
ghost use Rattle.borrow_analysis.specs.Graph.{graph_input, input_of, nodes_ok, triple_ok, length_place, triples_bad, next_triples, check_asked, check_graphs};
ghost use Rattle.borrow_analysis.specs.GraphParts.{NodesBelow, AcceptedGraph};

use crate::triples::{Triples, triple_at};
use base::{MAX_LOCALS, MAX_TRIPLES, Refusal, SET_WORDS};
use dataflow_domains::LiveVarState;

// The place of a list of triples with a wrong length: the paper's number.
const LENGTH_PLACE: usize = 300;

// What is added to a place of the second graph of a call, in check 12 and in check 13.
const NEXT_NODES: u16 = 1;

const NEXT_TRIPLES: u16 = 1000;

// A graph as it is handed over: three numbers for each triple.
#[derive(Clone, Copy)]
pub struct InputGraph<'a> {
    pub nodes: u32,
    pub live: u64,
    pub triples: &'a [u32],
}

// A graph that checks 12 and 13 accept.
#[derive(Clone, Copy)]
pub struct BorrowGraph<'a> {
    pub nodes: usize,
    pub live: LiveVarState,
    pub triples: Triples<'a>,
    pub ghost accepted: { AcceptedGraph (graph_input nodes (mask live) triples.numbers.now) },
}

// The live nodes as a set.
pub fn live_set(live: u64) -> LiveVarState
    ensures { mask result ≡ live }
{
    let mut a = [0u64; SET_WORDS];
    a[0] = live;
    LiveVarState { livevars: a }
}

impl<'a> InputGraph<'a> {
    // Whether there are few nodes and no live bit above them.
    #[tactic(auto, unfolding(crate::specs::Graph::nodes_ok))]
    fn nodes_ok(self) -> bool
        ensures { result ≡ nodes_ok self.entry.nodes self.entry.live }
    {
        self.nodes as usize <= MAX_LOCALS && self.live.checked_shr(self.nodes).unwrap_or(0) == 0
    }

    // Check 13 of one triple: its nodes are below the count, and it is above the one before it.
    #[tactic(auto, unfolding(crate::specs::Graph::triple_ok))]
    fn triple_ok(self, i: usize) -> bool
        requires { i < length self.triples.now / 3 }
        ensures { result ≡ triple_ok self.entry.nodes self.entry.triples.now i }
    {
        let t = triple_at(self.triples, i);
        t.parent < self.nodes
            && t.child < self.nodes
            && (i == 0 || triple_at(self.triples, i - 1) < t)
    }

    // The first triple that is wrong.
    fn first_bad(self) -> Option<usize>
        ensures first { result ≡ find (λ i. not (triple_ok self.entry.nodes self.entry.triples.now i)) (range_with_len 0 (length self.entry.triples.now / 3)) }
        ensures within { IfSome result (λ i. i < length self.entry.triples.now / 3) }
    {
        (0..self.triples.len() / 3).find(|&i| !self.triple_ok(i))
    }

    // The place at which check 13 fails.
    #[tactic(auto, unfolding(crate::specs::Graph::triples_bad))]
    fn triples_bad(self) -> Option<usize>
        ensures first { result ≡ triples_bad self.entry.nodes self.entry.triples.now }
        ensures within { IfSome result (λ p. p ≤ length_place) }
    {
        let n = self.triples.len();
        if n % 3 == 0 && n / 3 <= MAX_TRIPLES {
            return self.first_bad();
        }
        Some(LENGTH_PLACE)
    }

    // 12.
    fn check_nodes(self, by: u16) -> Result<(), Refusal>
        ensures checked { result ≡ check_whole (Refusal.Nodes by) (nodes_ok self.entry.nodes self.entry.live) }
        ensures accepted { OnOk result (nodes_ok self.entry.nodes self.entry.live ≡ true) }
    {
        if self.nodes_ok() {
            return Ok(());
        }
        Err(Refusal::Nodes(by))
    }

    // 13.
    fn check_triples(self, by: u16) -> Result<(), Refusal>
        requires { by ≤ next_triples }
        ensures checked { result ≡ check (λ p. Refusal.Triples (by + p)) (triples_bad self.entry.nodes self.entry.triples.now) }
        ensures accepted { OnOk result (triples_bad self.entry.nodes self.entry.triples.now ≡ None) }
    {
        match self.triples_bad() {
            Some(p) => Err(Refusal::Triples(by + p as u16)),
            None => Ok(()),
        }
    }

    // The graph, where both accept it.
    fn accepted(self) -> BorrowGraph<'a>
        requires nodes { nodes_ok self.nodes self.live ≡ true }
        requires triples { triples_bad self.nodes self.triples.now ≡ None }
        ensures { graph_input result.nodes (mask result.live) result.triples.numbers.now ≡ input_of self.entry }
    {
        BorrowGraph {
            nodes: self.nodes as usize,
            live: live_set(self.live),
            triples: Triples {
                numbers: self.triples,
            },
        }
    }
}

// 14.
fn check_node(nodes: u32, node: u32) -> Result<(), Refusal>
    ensures checked { result ≡ check_whole Refusal.AskedNode (ltb node nodes) }
    ensures accepted { OnOk result (node < nodes) }
{
    if node < nodes {
        return Ok(());
    }
    Err(Refusal::AskedNode)
}

// 12, 13 and 14: the graph that they accept.
#[tactic(auto, unfolding(crate::specs::Graph::check_asked))]
pub fn check_asked<'a>(graph: InputGraph<'a>, node: u32) -> Result<BorrowGraph<'a>, Refusal>
    ensures accepted { OnOk result (check_asked (input_of graph.entry) node ≡ Accepted) }
    ensures same { IfOk result (λ g. graph_input g.nodes (mask g.live) g.triples.numbers.now ≡ input_of graph.entry) }
    ensures asked { IfOk result (λ g. node < g.nodes) }
    ensures refused { IfErr result (λ e. check_asked (input_of graph.entry) node ≡ Err e) }
{
    graph.check_nodes(0)?;
    graph.check_triples(0)?;
    check_node(graph.nodes, node)?;
    Ok(graph.accepted())
}

// 12 of both graphs, then 13 of both: the graphs that they accept.
#[tactic(auto, unfolding(crate::specs::Graph::check_graphs))]
pub fn check_graphs<'a, 'b>(
    here: InputGraph<'a>,
    next: InputGraph<'b>,
) -> Result<(BorrowGraph<'a>, BorrowGraph<'b>), Refusal>
    ensures accepted { OnOk result (check_graphs (input_of here.entry) (input_of next.entry) ≡ Accepted) }
    ensures same { IfOk result (λ g. graph_input g.0.nodes (mask g.0.live) g.0.triples.numbers.now ≡ input_of here.entry) }
    ensures same_next { IfOk result (λ g. graph_input g.1.nodes (mask g.1.live) g.1.triples.numbers.now ≡ input_of next.entry) }
    ensures refused { IfErr result (λ e. check_graphs (input_of here.entry) (input_of next.entry) ≡ Err e) }
{
    here.check_nodes(0)?;
    next.check_nodes(NEXT_NODES)?;
    here.check_triples(0)?;
    next.check_triples(NEXT_TRIPLES)?;
    Ok((here.accepted(), next.accepted()))
}

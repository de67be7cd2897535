// The questions to borrow graphs: in use, conditional and dying nodes. Assumes nothing.
#![tactic(auto)]

ghost use Rattle.std.specs.Prelude.{◌≡◌, ◌<◌, cond, eqb, length, take, IfOk};
ghost use Rattle.base.specs.Refusals.{answer_of, output_after};
ghost use Rattle.dataflow_domains.specs.Mask.{holds};
ghost use Rattle.dataflow_domains.specs.Sets.{mask};
ghost use Rattle.borrow_analysis.specs.Graph.{input_of, triples_of, graph_of};
ghost use Rattle.borrow_analysis.specs.Borrows.{upward, in_use_reply, conditional_reply, dying_reply};
ghost use Rattle.borrow_analysis.specs.Meaning.{InUse, Conditional, DyingList, Decides};

use crate::upward::above;
use ancestors::collect_from;
use base::Refusal;
use borrow_analysis::graph::{BorrowGraph, InputGraph, check_asked, check_graphs};
use dataflow_domains::LiveVarState;

pub mod upward; // upward.rt: up from a set of nodes

// Whether a node or a descendant of it is in a set: yes is 1, no is 0, since every call answers with one number, as C is given it.
fn reaches(graph: BorrowGraph, set: LiveVarState, node: u32) -> u32
    requires { node < graph.nodes }
    ensures { result ≡ cond (holds (upward graph.entry.nodes (triples_of graph.entry.triples.numbers.now) (mask set)) node) 1 0 }
{
    u32::from(above(graph.triples, set, graph.nodes).has(node as u8))
}

// Whether a node or a descendant of it is live. It and `conditional` differ in the set alone, and a function that takes the set would be no shorter than two lines.
#[tactic(auto, unfolding(borrow_analysis::specs::Borrows::in_use_reply))]
pub fn in_use(graph: InputGraph<'_>, node: u32) -> Result<u32, Refusal>
    ensures result { result ≡ answer_of (in_use_reply (input_of graph.entry) node) }
    ensures means { IfOk result (λ yes. Decides (eqb yes 1) (InUse (graph_of (input_of graph.entry)) node)) }
{
    let graph = check_asked(graph, node)?;
    Ok(reaches(graph, graph.live, node))
}

// Whether more than one triple leads to a node or to a descendant of it.
#[tactic(auto, unfolding(borrow_analysis::specs::Borrows::conditional_reply))]
pub fn conditional(graph: InputGraph<'_>, node: u32) -> Result<u32, Refusal>
    ensures result { result ≡ answer_of (conditional_reply (input_of graph.entry) node) }
    ensures means { IfOk result (λ yes. Decides (eqb yes 1) (Conditional (graph_of (input_of graph.entry)) node)) }
{
    let graph = check_asked(graph, node)?;
    Ok(reaches(graph, graph.triples.many_in(), node))
}

// The nodes that die from this graph to the next: how many, and each as one lent byte.
#[tactic(auto, unfolding(borrow_analysis::specs::Borrows::dying_reply))]
pub fn dying(here: InputGraph<'_>, next: InputGraph<'_>, out: &mut [u8]) -> Result<u32, Refusal>
    ensures result { result ≡ answer_of (dying_reply (input_of here.entry) (input_of next.entry) (length out.old)) }
    ensures written { out.new ≡ output_after (dying_reply (input_of here.entry) (input_of next.entry) (length out.old)) out.old }
    ensures means { IfOk result (λ count. DyingList (graph_of (input_of here.entry)) (graph_of (input_of next.entry)) (take count out.new)) }
{
    let (here, next) = check_graphs(here, next)?;
    if out.len() < here.nodes {
        return Err(Refusal::OutputShort);
    }
    let used = above(next.triples, next.live, next.nodes);
    let seen = collect_from(here.triples, used, here.live, &mut out[..here.nodes]);
    Ok(seen.count as u32)
}

// Up from a set of nodes, over the triples. Assumes nothing.
ghost use Rattle.std.specs.Prelude.{◌≡◌};
ghost use Rattle.dataflow_domains.specs.Sets.{mask};
ghost use Rattle.borrow_analysis.specs.Graph.{triples_of};
ghost use Rattle.borrow_analysis.specs.Borrows.{parents_in, upward};

use borrow_analysis::triples::Triples;
use dataflow_domains::LiveVarState;

// A set with the parents, over one triple, of its nodes.
fn parents_in(triples: Triples, set: LiveVarState) -> LiveVarState
    ensures { mask result ≡ parents_in (triples_of triples.entry.numbers.now) (mask set) }
{
    let mut grown = set;
    for i in 0..triples.count() {
        if set.has(triples.child_at(i)) {
            grown = grown.insert(triples.parent_at(i));
        }
    }
    grown
}

// The nodes that are in a set or have a descendant in it, at most `times` triples away. Where one turn adds none, no other does.
pub fn above(triples: Triples, set: LiveVarState, times: usize) -> LiveVarState
    ensures { mask result ≡ upward times (triples_of triples.entry.numbers.now) (mask set) }
{
    let mut reached = set;
    for _ in 0..times {
        let grown = parents_in(triples, reached);
        if grown.same(reached) {
            return reached;
        }
        reached = grown;
    }
    reached
}

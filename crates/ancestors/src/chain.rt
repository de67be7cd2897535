// The triples of a graph, chained by the node that they lead to, and the scan of a chain. Assumes nothing.
ghost use Rattle.std.specs.Prelude.{◌≡◌, false, IfSome, IfNone, ◌/◌, ◌<◌, ◌≤◌, length};
ghost use Rattle.base.specs.Sizes.{max_locals, max_triples};
ghost use Rattle.dataflow_domains.specs.Sets.{mask};
ghost use Rattle.ancestors.specs.Ancestors.{passed_over};
ghost use Rattle.ancestors.specs.Chains.{parent_at, Chained, Firsts};
ghost use Rattle.ancestors.specs.Walking.{ScansOn};

use borrow_analysis::triples::Triples;
use dataflow_domains::LiveVarState;

// The ways up from a node: triples, for each the next that leads to the same node, and the nodes in use in the next graph.
#[derive(Clone, Copy)]
pub struct Ways<'a> {
    pub triples: Triples<'a>,
    pub next: &'a [u16],
    pub used: LiveVarState,
    pub ghost chained: { Chained triples.numbers.now 0 next.now },
}

// For each node the first triple that leads to it, and for each triple the next that leads to the same node; the number of triples where there is none: arrays
// of Option<u16> take twice the instructions on a graph of five triples, and a tenth more on one of 256.
pub fn chain(triples: Triples, first: &mut [u16], next: &mut [u16])
    requires few { length triples.numbers.now / 3 ≤ max_triples }
    requires behind { Firsts triples.numbers.now (length triples.numbers.now / 3) first.old }
    requires room { length triples.numbers.now / 3 ≤ length next.old }
    ensures firsts { Firsts triples.entry.numbers.now 0 first.new }
    ensures chained { Chained triples.entry.numbers.now 0 next.new }
{
    let n = triples.count();
    for i in (0..n).rev() {
        let child = usize::from(triples.child_at(i));
        next[i] = first[child];
        first[child] = i as u16;
    }
}

impl<'a> Ways<'a> {
    // Whether a node is one of `nodes`, those listed, or in use in the next graph.
    pub fn passes_over(self, nodes: LiveVarState, node: u8) -> bool
        requires { node < max_locals }
        ensures { result ≡ passed_over (mask nodes) (mask self.entry.used) node }
    {
        nodes.has(node) || self.used.has(node)
    }

    // The scan for a parent that is not passed over, from triple `from` on and through those behind it in its chain.
    pub fn next_parent(self, nodes: LiveVarState, from: usize) -> Option<usize>
        ensures found { IfSome result (λ i. ScansOn self.entry.triples.numbers.now (mask nodes) (mask self.entry.used) from i) }
        ensures within { IfSome result (λ i. i < length self.entry.triples.numbers.now / 3) }
        ensures new { IfSome result (λ i. passed_over (mask nodes) (mask self.entry.used) (parent_at self.entry.triples.numbers.now i) ≡ false) }
        ensures none { IfNone result (ScansOn self.entry.triples.numbers.now (mask nodes) (mask self.entry.used) from (length self.entry.triples.numbers.now / 3)) }
    {
        let n = self.triples.count();
        let mut i = from;
        // No range: the chain says which place is the next.
        while i < n {
            if !self.passes_over(nodes, self.triples.parent_at(i)) {
                return Some(i);
            }
            i = usize::from(self.next[i]);
        }
        None
    }
}

// The walk over the ancestors of dying nodes: a list that grows and shrinks, which is the path. Assumes nothing.
#![tactic(auto)]

ghost use Rattle.std.specs.Prelude.{◌≡◌, [], ◌/◌, ◌^◌, ◌<◌, ◌≤◌, length};
ghost use Rattle.base.specs.Sizes.{max_locals, max_triples};
ghost use Rattle.base.specs.Lists.{over};
ghost use Rattle.dataflow_domains.specs.Members.{members};
ghost use Rattle.dataflow_domains.specs.Sets.{mask};
ghost use Rattle.borrow_analysis.specs.Graph.{triples_of};
ghost use Rattle.borrow_analysis.specs.Borrows.{none_visited, collect_ancestors};
ghost use Rattle.borrow_analysis.specs.GraphParts.{NodesBelow};
ghost use Rattle.borrow_analysis.specs.Visiting.{VisitsWritten};
ghost use Rattle.ancestors.specs.Ancestors.{end_of};
ghost use Rattle.ancestors.specs.Walking.{listed_by, state_of, Going, PutOn, Stepped};

use crate::chain::{Ways, chain};
pub use crate::node_list::{NodeList, Path};
use base::{MAX_LOCALS, MAX_TRIPLES};
use borrow_analysis::triples::Triples;
use dataflow_domains::LiveVarState;

pub mod chain; // chain.rt: the triples, chained by the node that they lead to
pub mod node_list; // node_list.rt: a list of nodes in a lent slice, and one in an array of its own

// The nodes listed, and how many they are.
#[derive(Clone, Copy)]
pub struct Visited {
    pub nodes: LiveVarState,
    pub count: usize,
}

// A state of the walk: the path from the node at which it began, the nodes listed, and for each node the place of its scan.
#[derive(Clone, Copy)]
pub struct Walk {
    pub path: NodeList,
    pub listed: NodeList,
    pub nodes: LiveVarState,
    pub scans: [u16; MAX_LOCALS],
}

impl Walk {
    // A node is listed and put at the end of the path.
    fn put(&mut self, node: u8)
        requires low { node < max_locals }
        requires listed { length self.old.listed.items < max_locals }
        requires path { length self.old.path.items < max_locals }
        ensures { PutOn self.old node self.new }
    {
        self.listed.push(node);
        self.nodes = self.nodes.insert(node);
        self.path.push(node);
    }

    // One step: the next parent of the path's end that is not passed over is put, and where there is none the end is taken off.
    fn step(&mut self, ways: Ways, end: u8)
        requires going { Going ways.triples.numbers.now (mask ways.used) self.old }
        requires some { 0 < length self.old.path.items }
        requires last { end ≡ end_of (state_of self.old) }
        ensures { Stepped ways.entry.triples.numbers.now (mask ways.entry.used) self.old self.new }
    {
        let at = usize::from(end);
        match ways.next_parent(self.nodes, usize::from(self.scans[at])) {
            Some(i) => {
                self.scans[at] = ways.next[i];
                self.put(ways.triples.parent_at(i));
            }
            None => {
                self.path.pop();
            }
        }
    }

    // A node and then its ancestors, where not listed and not in use: the walk from it, until nothing is on the path.
    fn collect_ancestors(&mut self, ways: Ways, node: u8)
        requires going { Going ways.triples.numbers.now (mask ways.used) self.old }
        requires rests { self.old.path.items ≡ [] }
        requires low { node < max_locals }
        ensures going { Going ways.entry.triples.numbers.now (mask ways.entry.used) self.new }
        ensures rests { self.new.path.items ≡ [] }
        ensures listed { listed_by self.new ≡ collect_ancestors max_locals (triples_of ways.entry.triples.numbers.now) (mask ways.entry.used) (listed_by self.old) node }
    {
        if ways.passes_over(self.nodes, node) {
            return;
        }
        self.put(node);
        // No range: the walk ends when the path is empty, and counts no index.
        while let Some(&end) = self.path.as_slice().last() {
            self.step(ways, end);
        }
    }

    // What is listed, in the first of the lent bytes.
    fn write(&self, out: &mut [u8]) -> Visited
        requires { length self.now.listed.items ≤ length out.old }
        ensures written { VisitsWritten (listed_by self.now) (mask result.nodes) result.count out.old out.new }
        ensures fits { result.count ≤ length out.old }
    {
        let listed = self.listed.as_slice();
        let count = listed.len();
        out[..count].copy_from_slice(listed);
        Visited {
            nodes: self.nodes,
            count,
        }
    }
}

// The walks from each node of a set, ascending: what they listed, in the first of the lent bytes.
pub fn collect_from(
    triples: Triples,
    used: LiveVarState,
    from: LiveVarState,
    out: &mut [u8],
) -> Visited
    requires inside { NodesBelow (length out.old) triples.numbers.now }
    requires few { length out.old ≤ max_locals }
    requires short { length triples.numbers.now / 3 ≤ max_triples }
    requires small { mask from < 2 ^ length out.old }
    ensures written { VisitsWritten (over (collect_ancestors (length out.old) (triples_of triples.entry.numbers.now) (mask used)) none_visited (members (length out.old) (mask from))) (mask result.nodes) result.count out.old out.new }
    ensures fits { result.count ≤ length out.old }
{
    let mut walk = Walk {
        path: NodeList::new(),
        listed: NodeList::new(),
        nodes: LiveVarState::empty(),
        scans: [triples.count() as u16; MAX_LOCALS],
    };
    let mut next = [0; MAX_TRIPLES];
    chain(triples, &mut walk.scans, &mut next);
    let ways = Ways {
        triples,
        next: &next,
        used,
    };
    let mut left = from;
    // By place, as document 01 wants sets: the least element, then those left.
    while let Some((node, rest)) = left.split_lowest() {
        walk.collect_ancestors(ways, node);
        left = rest;
    }
    walk.write(out)
}

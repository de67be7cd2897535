// A list of nodes in the first places of a lent slice, and one in an array of its own. Assumes nothing.
ghost use Rattle.std.specs.Prelude.{◌≡◌, [], ◌∷◌, ◌++◌, ◌+◌, ◌-◌, ◌<◌, ◌≤◌, length, get_or, set, take};
ghost use Rattle.base.specs.Sizes.{max_locals};

use base::MAX_LOCALS;
use std::marker::Model;

// The list's cursor: the list is in the first `len` places of a slice beside it.
#[derive(Clone, Copy)]
pub struct Path {
    pub len: usize,
}

impl Path {
    // One more at the end.
    pub fn put(self, list: &mut [u8], node: u8) -> Path
        requires { self.len < length list.old }
        ensures len { result.len ≡ self.len + 1 }
        ensures list { list.new ≡ set list.old self.len node }
    {
        list[self.len] = node;
        Path { len: self.len + 1 }
    }

    // The end.
    pub fn last(self, list: &[u8]) -> u8
        requires some { 0 < self.len }
        requires fits { self.len ≤ length list.now }
        ensures { result ≡ get_or list.now (self.len - 1) 0 }
    {
        list[self.len - 1]
    }

    // The end is taken off.
    pub fn take_off(self) -> Path
        requires { 0 < self.len }
        ensures { result.len ≡ self.len - 1 }
    {
        Path { len: self.len - 1 }
    }
}

// As many nodes as there are at most, in order.
#[derive(Clone, Copy)]
pub struct NodeList {
    nodes: [u8; MAX_LOCALS],
    count: Path,
}

impl Model for NodeList {
    ghost use Rattle.std.specs.Prelude.{◌≡◌, ◌≤◌, ◌++◌, length, take, drop};
    ghost use Rattle.std.proofs.Common.{take-append-drop, length-take-le};
    ghost use Rattle.base.specs.Sizes.{max_locals};
    ghost use Rattle.ancestors.specs.NodeList.{NodeList as Items};

    ghost Value = { Items };

    ghost view = { λ l. record { items = take l.count.len l.nodes; spare = drop l.count.len l.nodes } };

    ghost invariant = { λ l. (l.count.len ≤ length l.nodes) × (length l.nodes ≡ max_locals) };

    ghost inverse = { λ l. record { nodes = l.items ++ l.spare; count = record { len = length l.items } } };

    ghost inverse_ok = { λ l h i. record { nodes = take-append-drop l.count.len l.nodes i; count = record { len = length-take-le l.count.len l.nodes h.0 i } } };
}

impl NodeList {
    pub fn new() -> NodeList
        ensures { result.items ≡ [] }
    {
        NodeList {
            nodes: [0; MAX_LOCALS],
            count: Path { len: 0 },
        }
    }

    // One more at the end.
    pub fn push(&mut self, node: u8)
        requires { length self.old.items < max_locals }
        ensures { self.new.items ≡ self.old.items ++ node ∷ [] }
    {
        self.count = self.count.put(&mut self.nodes, node);
    }

    // The end is taken off.
    pub fn pop(&mut self)
        requires { 0 < length self.old.items }
        ensures { self.new.items ≡ take (length self.old.items - 1) self.old.items }
    {
        self.count = self.count.take_off();
    }

    pub fn as_slice(&self) -> &[u8]
        ensures { result.now ≡ self.now.items }
    {
        &self.nodes[..self.count.len]
    }
}

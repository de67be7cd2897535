// The triples of a graph, one by one, and the nodes to which more than one leads. Assumes nothing.
ghost use Rattle.std.specs.Prelude.{◌≡◌, ◌+◌, ◌*◌, ◌/◌, ◌<◌, length, get_or};
ghost use Rattle.base.specs.Sizes.{max_locals};
ghost use Rattle.dataflow_domains.specs.Sets.{mask};
ghost use Rattle.borrow_analysis.specs.Graph.{triple_at, triples_of};
ghost use Rattle.borrow_analysis.specs.GraphParts.{NodesBelow, ManyIncoming};

use dataflow_domains::LiveVarState;

// The numbers of a triple. Triples are ordered by the first that differs.
#[derive(Clone, Copy, PartialEq, Eq, PartialOrd, Ord)]
pub struct Triple {
    pub parent: u32,
    pub child: u32,
    pub edge: u32,
}

// Triple i.
pub fn triple_at(triples: &[u32], i: usize) -> Triple
    requires { i < length triples.now / 3 }
    ensures { result ≡ triple_at triples.now i }
{
    let at = 3 * i;
    Triple {
        parent: triples[at],
        child: triples[at + 1],
        edge: triples[at + 2],
    }
}

// Triples whose nodes fit into a set.
#[derive(Clone, Copy)]
pub struct Triples<'a> {
    pub numbers: &'a [u32],
    pub ghost inside: { NodesBelow max_locals numbers.now },
}

impl<'a> Triples<'a> {
    // How many there are.
    pub fn count(self) -> usize
        ensures { result ≡ length self.entry.numbers.now / 3 }
    {
        self.numbers.len() / 3
    }

    // The parent of triple i.
    pub fn parent_at(self, i: usize) -> u8
        requires { i < length self.numbers.now / 3 }
        ensures value { result ≡ get_or self.entry.numbers.now (3 * i) 0 }
        ensures low { result < max_locals }
    {
        self.numbers[3 * i] as u8
    }

    // Its child.
    pub fn child_at(self, i: usize) -> u8
        requires { i < length self.numbers.now / 3 }
        ensures value { result ≡ get_or self.entry.numbers.now (3 * i + 1) 0 }
        ensures low { result < max_locals }
    {
        self.numbers[3 * i + 1] as u8
    }

    // The nodes to which more than one leads.
    pub fn many_in(self) -> LiveVarState
        ensures { ManyIncoming (triples_of self.entry.numbers.now) (mask result) }
    {
        let mut once = LiveVarState::empty();
        let mut many = LiveVarState::empty();
        for i in 0..self.count() {
            let child = self.child_at(i);
            let again = once.has(child);
            if again {
                many = many.insert(child);
            }
            once = once.insert(child);
        }
        many
    }
}

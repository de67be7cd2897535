// The graph of a sheet's blocks by key, as a run over it reads it. Assumes nothing.
ghost use Rattle.std.specs.Prelude.{◌≡◌, ℕ, get_or};

use base::MAX_INSTRUCTIONS;

// The slots of a key, and of the most keys: the keys of its successors.
pub const KEY_SLOTS: usize = 2;

pub const MAX_SLOTS: usize = KEY_SLOTS * (MAX_INSTRUCTIONS + 2);

// Where each key's part of the backward graph starts, with room for the counts.
const FIRST_EDGES: usize = MAX_INSTRUCTIONS + 5;

// The graph of a sheet's blocks, in arrays for the largest sheet. It is lent to be filled, since by value it would be copied; a run looks at its arrays as slices, so that it takes the tables of any code.
#[derive(Drop)]
pub struct Graph {
    // The lower and the upper of each block, by key.
    pub lower_of_key: [u16; MAX_INSTRUCTIONS],
    pub upper_of_key: [u16; MAX_INSTRUCTIONS],
    // The key of the block of each offset.
    pub key_of_offset: [u16; MAX_INSTRUCTIONS],
    // What key k leads to backward stands in `edges` from place first_edge[k] to place first_edge[k + 1].
    pub first_edge: [u16; FIRST_EDGES],
    pub edges: [u16; MAX_SLOTS],
    // How many blocks.
    pub count: usize,
}

impl Graph {
    pub fn new() -> Graph
        ensures { (k : ℕ) → get_or result.first_edge k 0 ≡ 0 }
    {
        Graph {
            lower_of_key: [0; MAX_INSTRUCTIONS],
            upper_of_key: [0; MAX_INSTRUCTIONS],
            key_of_offset: [0; MAX_INSTRUCTIONS],
            first_edge: [0; FIRST_EDGES],
            edges: [0; MAX_SLOTS],
            count: 0,
        }
    }
}

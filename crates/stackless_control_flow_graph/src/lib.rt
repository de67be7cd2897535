// The blocks of a sheet's code, and their keys. Assumes nothing.
#![tactic(auto)]

pub mod next; // next.rt: the successors of an offset
pub mod starts; // starts.rt: the successors of every offset, and where blocks start
pub mod blocks; // blocks.rt: the blocks by offset
pub mod keys; // keys.rt: the key of each block
pub mod graph; // graph.rt: the graph of the blocks by key

// The successors of an offset, or their keys: none, one, or two by ascending offset.
#[derive(Clone, Copy)]
pub enum Successors {
    None,
    One(u16),
    Two(u16, u16),
}

// A block: its first offset and its last.
#[derive(Clone, Copy)]
pub struct Block {
    pub lower: usize,
    pub upper: usize,
}

// The tables of a page: the blocks and where they lead, the Labels that nobody names, and the live sets. Assumes nothing.
#![tactic(auto)]

pub mod blocks; // blocks.rt: the blocks and where they lead
pub mod labels; // labels.rt: the Labels that nobody names
pub mod sets; // sets.rt: the live sets

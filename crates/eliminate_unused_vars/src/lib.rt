// Which locals of a sheet stay, and its code under their new numbers. Assumes nothing.
#![tactic(auto)]

pub mod names; // names.rt: the numbers of the locals that stay, in the order of first mention
pub mod remap; // remap.rt: lists, instructions and code under the new numbers

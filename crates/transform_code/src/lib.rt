// The new code of a rewriting, written by its plan. Assumes nothing.
#![tactic(auto)]

pub mod write; // write.rt: the new code by its plan

// The work list of live over the backward graph. Assumes nothing.
#![tactic(auto)]

pub mod engine; // engine.rt: the work list over the backward graph

// The call live. Assumes nothing.
#![tactic(auto)]

pub mod analysis; // analysis.rt: the call live

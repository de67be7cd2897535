// Check 5 of a sheet. Assumes nothing.
#![tactic(auto)]

pub mod locals; // locals.rt: check 5

// All checks of a sheet, one after the other. Assumes nothing.
#![tactic(auto)]

pub mod check; // check.rt: all checks

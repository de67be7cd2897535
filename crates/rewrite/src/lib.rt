// The call rewrite: the new sheet of a sheet's code. Assumes nothing.
#![tactic(auto)]

pub mod rewrite; // rewrite.rt: the new sheet, and the call rewrite

// Rewriting of code by its live sets. Assumes nothing.
#![tactic(auto)]

pub mod plan; // plan.rt: what becomes of each offset, what each edge loses, and the count
pub mod instructions; // instructions.rt: instructions made or changed

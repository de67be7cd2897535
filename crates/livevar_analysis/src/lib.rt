// Live variable analysis: the rules of the instructions, rules applied, and what a run reads. Assumes nothing.
#![tactic(auto)]

pub mod rules; // rules.rt: each instruction's rule, decoded once, and one applied
pub mod execute; // execute.rt: the rules of a block applied
pub mod tables; // tables.rt: what a run of the work list reads

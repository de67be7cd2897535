// What a label is in an accepted sheet. Assumes nothing.
#![tactic(auto)]

pub mod label; // label.rt: the call label

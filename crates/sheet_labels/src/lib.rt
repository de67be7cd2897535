// Checks 6 to 8 of a sheet, and where the labels stand that it names. Assumes nothing.
#![tactic(auto)]

pub mod labels; // labels.rt: checks 6 to 8

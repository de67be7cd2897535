// Checks 1 to 4 of a sheet: its length, its blocks, its heading, its records. Assumes nothing.
#![tactic(auto)]

pub mod blocks; // blocks.rt: checks 1 to 3
pub mod records; // records.rt: check 4
pub mod form; // form.rt: checks 1 to 4, one after the other

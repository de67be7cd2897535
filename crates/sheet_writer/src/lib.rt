// How a sheet is written: records, blocks and the whole. Assumes nothing.
#![tactic(auto)]

pub mod writer; // writer.rt: numbers, lists and records into bytes
pub mod whole; // whole.rt: a sheet out of its heading and its records

// The flow table: its rows, and the call flow. Assumes nothing.
#![tactic(auto)]

pub mod rows; // rows.rt: the rows of the flow table
pub mod forward; // forward.rt: the call flow

// The backward graph of a sheet's code: what each key leads to, and the arrays by key. Assumes nothing.
#![tactic(auto)]

pub mod backward; // backward.rt: what each key leads to in the backward graph
pub mod graph; // graph.rt: the arrays of the graph by key

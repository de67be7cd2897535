// Borrow graphs: their triples, and checks 12 to 14. Assumes nothing.
#![tactic(auto)]

pub mod graph; // graph.rt: a graph as it is handed over (InputGraph), checks 12 to 14, and a graph that they accept (BorrowGraph)
pub mod triples; // triples.rt: the triples of a graph

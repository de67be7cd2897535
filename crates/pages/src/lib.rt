// The code of a sheet on its page, as bytes in a lent slice. Assumes nothing.
#![tactic(auto)]

pub mod words; // words.rt: words, and numbers behind words
pub mod names; // names.rt: what instructions are called
pub mod code; // code.rt: a sheet's code

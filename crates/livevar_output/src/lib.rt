// The live sets before and after each instruction, as bytes. Assumes nothing.
#![tactic(auto)]

pub mod output; // output.rt: the sets before and after each instruction, as bytes

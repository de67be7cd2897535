// The text of livelist, as bytes in a lent slice. Assumes nothing.
#![tactic(auto)]

pub mod text; // text.rt: the lines, the count and the refusal
pub mod writer; // writer.rt: bytes and numbers, as far as the slice goes

// The call renumber: the sheet with no more locals than it needs. Assumes nothing.
#![tactic(auto)]

pub mod heading; // heading.rt: the new reference mask, and the new heading
pub mod renumber; // renumber.rt: refusal 15, the new sheet, and the call renumber

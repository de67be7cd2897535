// Class sets, sheets laid end to end: their definitions, the cut into sheets, and the checks of the whole. Assumes nothing.
#![tactic(auto)]

pub mod check; // check.rt: 1, 16, 17 and 9
pub mod cut; // cut.rt: where each sheet starts

// The call live over a class set: sheets laid end to end. Assumes nothing.
#![tactic(auto)]

pub mod live_class; // live_class.rt: each sheet, and the call live_class

// The call livelist: the live sets of a sheet as text. Assumes nothing.
#![tactic(auto)]

pub mod livelist; // livelist.rt: the call, for any bytes

// The file of stored cases: packed strings, the head and the rows, and the counts of what came. Assumes nothing.
#![tactic(auto)]

pub mod op; // op.rt: the calls that a case may ask
pub mod packed; // packed.rt: packed strings, and what lent output holds before a call
pub mod stored; // stored.rt: the head and the rows of the file
pub mod tally; // tally.rt: counts, and what is printed

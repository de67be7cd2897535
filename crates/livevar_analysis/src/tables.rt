// What a run of the work list reads of the code. Assumes nothing.
use crate::rules::Rule;

// The rule of each instruction, the bounds of each block, and of each key the part of `edges` that it leads to.
#[derive(Clone, Copy)]
pub struct Tables<'a> {
    pub rules: &'a [Rule],
    pub lower_of_key: &'a [u16],
    pub upper_of_key: &'a [u16],
    pub first_edge: &'a [u16],
    pub edges: &'a [u16],
}

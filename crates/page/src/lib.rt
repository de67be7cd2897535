// The page of a sheet, and the call. Assumes nothing.
#![tactic(auto)]

pub mod sections; // sections.rt: the four sections of an accepted sheet's page
pub mod page; // page.rt: the page of any bytes, and the call

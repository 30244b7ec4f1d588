// The lines of units, notes, refusals and totals, in decimal, written to a slice.
#![tactic(auto)]

pub mod decimal;
pub mod line;

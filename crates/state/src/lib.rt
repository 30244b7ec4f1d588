// The receiver's state: where its parts stand in the lent words, and start.
#![tactic(auto)]

pub mod places;
pub mod start;

// The watch list: as start is given it, and in rising order, as start keeps it.
#![tactic(auto)]

pub mod given;
pub mod rising;

// Frame, lost frame, slot and lost slot: what the tuner gives, and what next then has to read.
#![tactic(auto)]

pub mod frame;
pub mod slot;

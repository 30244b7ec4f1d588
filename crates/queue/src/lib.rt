// Events, and what next has yet to give of a packet.
#![tactic(auto)]

pub mod event;
pub mod located;
pub mod waiting;

// Reassembly: units joined from the pieces of one packet_id.
#![tactic(auto)]

pub mod channel;
pub mod config;
pub mod join;
pub mod note;
pub mod unit;

// Delivery: from a slot in packet memory to events, through the states of packet_ids and collecting memory.
#![tactic(auto)]

pub mod cursor;
pub mod packet;

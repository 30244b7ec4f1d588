// Parts of the receiver's state in words: what start keeps, the state of a packet_id, what is held, the cursor.
#![tactic(auto)]

pub mod channel;
pub mod config;
pub mod cursor;

// Intake: a slot comes to packet memory, and to the bytes that are held.
#![tactic(auto)]

pub mod held;
pub mod slot;

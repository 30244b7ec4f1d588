// A capture: commands from bytes, lines of text to bytes.
#![tactic(auto)]

pub mod act;
pub mod command;
pub mod finish;
pub mod pour;
pub mod session;

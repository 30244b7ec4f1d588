// The receiver: next and show, over start, frame and slot.
#![tactic(auto)]

pub mod next;
pub mod show;

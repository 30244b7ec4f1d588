// The slot cutter: a slot of a run of TLV packets, with its pointers.
#![tactic(auto)]

mod pointers;
pub mod slot;

// Slots and TLV packets: the walk over a slot, its soundness, and what it does to held bytes.
#![tactic(auto)]

pub mod held;
pub mod note;
pub mod packet;
pub mod slot;

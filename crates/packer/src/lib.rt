// The packer: a unit cut into pieces, and each piece written as a TLV packet.
#![tactic(auto)]

pub mod pack;
pub mod packet;
pub mod piece;

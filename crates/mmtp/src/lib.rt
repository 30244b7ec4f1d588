// Packets: from a TLV packet to its MMTP packet, and from that to its header, its payload and its data units.
#![tactic(auto)]

pub mod flow;
pub mod header;
pub mod note;
pub mod packet;
pub mod payload;
pub mod reader;
pub mod unit;

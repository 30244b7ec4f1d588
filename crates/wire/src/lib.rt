// Bytes and fields: big-endian fields, parts of a slice, copying.
#![tactic(auto)]

pub mod field;
pub mod memory;

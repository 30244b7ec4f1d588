// Feeding: a capture's bytes in blocks of any size.
#![tactic(auto)]

pub mod feed;

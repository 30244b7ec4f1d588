// Functions of C linkage, for programs in C or Rust to link; include/ixohuemil.h describes them.
#![tactic(auto)]

mod answer;
pub mod cut;
pub mod events;
pub mod pack;
pub mod receive;
pub mod text;

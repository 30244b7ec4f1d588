// The control block: from its bytes to the frame's layout, or a refusal.
#![tactic(auto)]

pub mod block;
pub mod layout;
pub mod mode;
pub mod stream;

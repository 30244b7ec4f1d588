// The receiver's calls over plain words: start's settings, events as records, many events for one call, a copy of a unit's bytes.
#![tactic(auto)]

pub mod bounds;
pub mod events;
pub mod record;
pub mod settings;
pub mod show;

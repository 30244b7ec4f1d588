// The round trip: no code, the theorem alone.
#![tactic(auto)]

// What is proved of broadcasts as a whole; no code.
#![tactic(auto)]

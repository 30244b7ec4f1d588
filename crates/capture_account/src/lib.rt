// What is proved of captures, from their bytes to the account of what they carry; no code.
#![tactic(auto)]

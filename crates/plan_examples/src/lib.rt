// Plans in literal bytes, for the examples of more than one crate: specs/. There is no code here.

#![tactic(auto)]

// Where to load the hop step, for a plan with one of its lists: a public call.

#![tactic(auto)]

pub mod hop_set;

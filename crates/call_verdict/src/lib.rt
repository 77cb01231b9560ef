// The verdict of a plan for one of its lists: a public call.

#![tactic(auto)]

pub mod verdict;

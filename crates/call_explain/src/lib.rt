// Why one router relies on another, or does not: a public call.

#![tactic(auto)]

pub mod explain;

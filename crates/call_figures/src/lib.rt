// The figures over all lists of a plan: a public call.

#![tactic(auto)]

pub mod figures;

// The tables that no act changes, of a plan with one of its lists: a public call.

#![tactic(auto)]

pub mod numbers;
pub mod steady;

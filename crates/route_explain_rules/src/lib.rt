// Why one router relies on another, or does not: the answer, and in specs/ what it must be. No code.

#![tactic(auto)]

pub mod explanation;

// The figures of a report over all lists of a plan: its types, and in specs/ what is counted and what holds of it. No code.

#![tactic(auto)]

pub mod report;

// The grade of a plan with one of its lists: a public call.

#![tactic(auto)]

pub mod grade;

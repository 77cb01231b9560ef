// Whether a plan is stable for every egress list: a public call.

#![tactic(auto)]

pub mod every_list;

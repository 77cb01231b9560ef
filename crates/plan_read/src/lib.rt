// A plan read: its refusal number, and the parts and egress lists of one that is not refused.

#![tactic(auto)]

pub mod lists;
pub mod parts;
pub mod refusal;

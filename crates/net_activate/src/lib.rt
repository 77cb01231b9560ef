// What an activation leaves on a routing table in the caller's bytes.

#![tactic(auto)]

pub mod activations;

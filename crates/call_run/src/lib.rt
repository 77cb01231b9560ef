// The calls that change the caller's routing table. None has a `requires`: any bytes and numbers get a result or a refusal number.

#![tactic(auto)]

pub mod activate;
pub mod run;

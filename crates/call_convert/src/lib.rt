// The calls that convert a plan into the caller's buffer. None has a `requires`: any bytes get a result or a refusal number.

#![tactic(auto)]

pub mod convert;

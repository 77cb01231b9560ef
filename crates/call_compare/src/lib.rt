// The call that compares two egress routers at a router.

#![tactic(auto)]

pub mod compare;

// The closure and the groups of any relation between at most 64 routers, given as rows of bits: bit v of row w says that w is related to v.

#![tactic(auto)]

pub mod closing;
pub mod groups;

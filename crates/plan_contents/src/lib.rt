// The plan's first bytes and its table of contents: refusals 1 to 3.

#![tactic(auto)]

pub mod entries;
pub mod header;

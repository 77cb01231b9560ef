// Rows 8 to 10 of the refusal table, asked by the calls: the numbers, buffers and tables that these are handed.

#![tactic(auto)]

pub mod buffers;
pub mod numbers;

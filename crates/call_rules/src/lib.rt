// Rows 8 to 10 of the refusal table, call by call: definitions in specs/, theorems in proofs/. There is no code here.

#![tactic(auto)]

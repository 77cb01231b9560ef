// The rules of a plan: its four bodies, refusals 4 to 7 and 13; the rows of the refusal table in order, and what a plan that is not refused
// is. Definitions in specs/, theorems in proofs/. There is no code here.

#![tactic(auto)]

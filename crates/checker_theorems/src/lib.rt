// What is promised of the calls together: what a verdict means, that the answers agree, that every series of calls on a stable list
// settles. Definitions in specs/, theorems in proofs/. There is no code here.

#![tactic(auto)]

// The network's rules, stated over any instance: definitions in specs/, theorems in proofs/. There is no code here.

#![tactic(auto)]

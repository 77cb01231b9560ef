// Whether a plan is stable for every egress list, stated over any network: definitions in specs/, theorems in proofs/. There is no code here.

#![tactic(auto)]

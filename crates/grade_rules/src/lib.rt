// How a list's tables move: grades of a list, stated over any network: definitions in specs/, theorems in proofs/. There is no code here.

#![tactic(auto)]

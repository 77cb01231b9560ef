// Which tables no act changes, stated over any network: definitions in specs/, theorems in proofs/. There is no code here.

#![tactic(auto)]

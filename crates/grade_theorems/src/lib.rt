// What a list's grade means of its tables and of acts on them, stated over any network: claims in specs/, theorems in proofs/. There is no code here.

#![tactic(auto)]

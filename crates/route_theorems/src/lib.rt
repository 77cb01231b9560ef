// The theory of settling: claims in specs/, their proofs in proofs/.

#![tactic(auto)]

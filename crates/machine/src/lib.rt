// The plain machine of proof-number search over any game: definitions, in specs/, and laws, in proofs/.

#![tactic(auto)]

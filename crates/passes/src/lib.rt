// Two passes of games that share one allowance of expansions: definitions, in specs/, and laws, in proofs/.

#![tactic(auto)]

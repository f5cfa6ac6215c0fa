// Games of two players that search and draw moves, and their report: definitions, in specs/, and laws, in proofs/.

#![tactic(auto)]

// Ultimate Tic Tac Toe as a game of the plain machine: definitions, in specs/, and laws, in proofs/.

#![tactic(auto)]

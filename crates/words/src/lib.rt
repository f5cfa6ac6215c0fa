// Trees and free nodes in the words of a pool, five to a node: definitions, in specs/, and laws, in proofs/.

#![tactic(auto)]

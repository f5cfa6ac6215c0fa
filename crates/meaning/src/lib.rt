// What proof and disproof of an Unknown mean: definitions, in specs/, and laws, in proofs/.

#![tactic(auto)]

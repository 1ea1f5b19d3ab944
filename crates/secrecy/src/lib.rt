// Demand 3, nothing flows down: proved over the rules. See proofs/Demand3.antt.
#![tactic(auto)]

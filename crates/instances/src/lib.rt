// Demand 3 at work: computed examples that its premises are met, and that each of them is needed. See proofs/Instance.antt.
#![tactic(auto)]

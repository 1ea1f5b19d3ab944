// What the rules promise: proofs only.
#![tactic(auto)]

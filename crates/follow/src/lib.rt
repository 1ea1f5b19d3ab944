// What each call does to the working slice, and that it leaves it right. See proofs/.
#![tactic(auto)]

// Every call leaves a well-formed table and store well formed. See proofs/, first proofs/Kept.antt.
#![tactic(auto)]

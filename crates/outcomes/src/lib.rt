// Any two outcomes that a public function's contract allows are equal: proved for each from its own contract. See proofs/, first proofs/Exact.antt.
#![tactic(auto)]

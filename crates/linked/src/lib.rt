// What is so of the code that a host links: demand 3 of the exported functions, and image then reload. See proofs/Demand3.antt and proofs/Image.antt.
#![tactic(auto)]

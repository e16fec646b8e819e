// Demand 3, proved: see proofs/. There is no code here.
#![tactic(auto)]

// Demand 3 and the theorems beside it: statements in specs/, proofs in proofs/. There is no code here.
#![tactic(auto)]

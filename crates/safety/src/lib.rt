#![tactic(auto)]

// Demand 3 over any calls of the model, under specs/ (what it says) and proofs/. No code.

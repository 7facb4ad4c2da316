// Theorems about the device as a whole: see specs/ for what they say and proofs/ for their proofs.
#![tactic(auto)]

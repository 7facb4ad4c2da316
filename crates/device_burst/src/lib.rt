// Theorems about bursts as runs of the device: see specs/ for what they say and proofs/ for their proofs.
#![tactic(auto)]

// Runs of a device with its loss marks, sign-offs among the events: what a clear mark means. See specs/ for the words and proofs/ for the theorems.
#![tactic(auto)]

// The planner's list over the bus: see specs/ and proofs/.
#![tactic(auto)]

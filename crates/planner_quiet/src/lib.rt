// What a quiet list of writes is, when there is one, and one of them: see specs/ and proofs/.
#![tactic(auto)]

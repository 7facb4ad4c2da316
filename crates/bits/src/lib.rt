// Pin sets as numbers: the definitions are in specs/Bits.antt, their laws at every width in proofs/.
#![tactic(auto)]

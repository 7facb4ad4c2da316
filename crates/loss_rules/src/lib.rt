// The rules of the loss marks, which stand beside the device and outlive its resets: the definitions are in specs/Marks.antt, their laws in proofs/.
#![tactic(auto)]

// The register file and the pins: what each register is to each pin, in specs/; no code of its own.
// A register write, seen at one pin: see proofs/.
#![tactic(auto)]

// The arithmetic that the other crates' proofs cite: specs/ and proofs/ alone, no code.
#![tactic(auto)]

// The model has definitions in specs/ and theorems in proofs/, and no code.
#![tactic(auto)]

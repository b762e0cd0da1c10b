// The worst case of Refined First-Fit: theorems about the model only. specs/ states them, proofs/ has the argument.
#![tactic(auto)]

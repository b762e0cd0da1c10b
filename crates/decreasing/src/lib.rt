// Repacking by First-Fit-Decreasing: definitions and theorems only. specs/ states them, proofs/ has the argument.
#![tactic(auto)]

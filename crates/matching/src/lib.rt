// Pairing two rows by Algorithm PM: definitions and theorems only. specs/ states them, proofs/ has the argument.
#![tactic(auto)]

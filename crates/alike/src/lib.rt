// Two lists of commands, or two streams, that are answered alike: theorems about the model only. specs/ states them, proofs/ has the arguments.
#![tactic(auto)]

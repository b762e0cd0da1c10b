// What is promised of every accepted stream: theorems about the model only. specs/ has one record of all promises, proofs/ shows it.
#![tactic(auto)]

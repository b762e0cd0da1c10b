// Lists that meet the worst case, one for each number of bins: theorems about the model only. specs/ has the lists and states what holds of them.
#![tactic(auto)]

// The fault sheet, as theorems on the model.
#![tactic(auto)]

// What is claimed of every list of calls: theorems about the definitions, with no code.
#![tactic(auto)]

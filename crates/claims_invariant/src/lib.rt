// Soundness is kept: a claim about the definitions, with no code.
#![tactic(auto)]

// Which lent words are a sound machine's: a claim about the definitions, with no code.
#![tactic(auto)]

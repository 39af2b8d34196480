// The claims over lent words: definitions and theorems only.
#![tactic(auto)]

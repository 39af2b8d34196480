// What an outer call does to lent words: definitions and theorems only.
#![tactic(auto)]

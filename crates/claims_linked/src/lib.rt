// What a program that links the library may rely on: definitions and theorems only.
#![tactic(auto)]

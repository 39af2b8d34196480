// 01's Sound, unpacked, and what each function of the machine leaves of it: laws about the definitions, with no code.
#![tactic(auto)]

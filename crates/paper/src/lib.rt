// Document 01 over whole numbers: definitions in specs/. There is no code.
#![tactic(auto)]

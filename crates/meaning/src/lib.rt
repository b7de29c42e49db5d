// What is worked with for a plate is what document 01 says: definitions in specs/, theorems in proofs/. There is no code.
#![tactic(auto)]

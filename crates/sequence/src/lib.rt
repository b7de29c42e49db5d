// The mathematics of plans over any layers' errors: definitions in specs/, theorems in proofs/. There is no code.
#![tactic(auto)]

// What the calls promise together, in document 01's own words: statements in specs/, theorems in proofs/. There is no code.
#![tactic(auto)]

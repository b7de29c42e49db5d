// Laws on lists and lent buffers, for any element: definitions in specs/, laws in proofs/. There is no code.
#![tactic(auto)]

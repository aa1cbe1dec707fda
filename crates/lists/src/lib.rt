// Notions of lists that belong to no layer, and their laws: definitions in specs/, proofs in proofs/. No functions.
#![tactic(auto)]

// Demand 3 over the engine's own definitions: the claim in specs/, its proof in proofs/. No functions.
#![tactic(auto)]

// The serial-run theorem over an abstract protocol: definitions in specs/, proofs in proofs/. No functions.
#![tactic(auto)]

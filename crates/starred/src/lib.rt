// The starred lines of the paper's worked plan, as one table with one proof: see specs/Table.antt. No code.
#![tactic(auto)]

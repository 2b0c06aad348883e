// What the auditor gets: the statements stand in specs/, their proofs in proofs/; no code.
#![tactic(auto)]

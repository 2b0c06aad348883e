// Definitions and laws of lists, loops, bits and bytes; no code.
#![tactic(auto)]

// The worked cases of the rules, proved: one table, one statement; no code.
#![tactic(auto)]

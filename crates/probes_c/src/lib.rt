// The static library of the single steps: each step of `probes` under its own name, with its clauses.
#![tactic(auto)]

pub mod bits;
pub mod samples;
pub mod tables;

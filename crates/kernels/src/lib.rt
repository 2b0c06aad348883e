// From samples to symbols.
#![tactic(auto)]

pub mod symbols;

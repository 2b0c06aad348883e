// Which settings are taken, which readings are dropped, and which of two is the better.
#![tactic(auto)]

pub mod best;
pub mod filter;
pub mod settings;

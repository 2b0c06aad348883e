// Numbers and floats as bytes, the lowest byte first.
#![tactic(auto)]

pub mod float;
pub mod numbers;

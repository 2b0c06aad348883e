// Single steps of the decode, for a comparison that runs them one by one.
#![tactic(auto)]

pub mod bits;
pub mod samples;
pub mod tables;

// From symbols to bits, and which of them were undecided.
#![tactic(auto)]

mod measure;
pub mod slicers;
pub mod undecided;

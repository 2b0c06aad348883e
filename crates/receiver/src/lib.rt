// From a window of samples to the answer.
#![tactic(auto)]

mod answer;
mod by_trial;
mod candidate;
mod checks;
mod codes;
pub mod decode;
mod find;
mod kinds;
mod lanes;
mod lent;
mod message;
mod narrow;
mod phase;
mod six;
mod subsample;
pub mod tray;
mod trial;
pub mod trials;
mod undecided;
mod weigh;
mod window;

// The carrier of a message: the strongest bin of a spectrum, the power beside it, and the local maximum over time.
#![tactic(auto)]

mod bins;
pub mod maximum;
pub mod metric;
pub mod notch;
mod refusal;
pub mod search;

// A window by starting sample, before anything is sliced: a message that starts with sample p has its bits at p, p + 8, p + 16, ..
// The eight samples of a bit are eight lanes, side by side.
#![tactic(auto)]

mod bits;
mod crcs;
mod first;
pub mod list;
mod marks;
mod rows;
pub mod stream;
pub mod window;

// The powers of a message.
#![tactic(auto)]

pub mod around;
pub mod both;
mod norms;
pub mod power;

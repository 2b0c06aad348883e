// What is read off a stream of bits from a bit offset on.
#![tactic(auto)]

mod bits;
mod checks;
pub mod crc;
pub mod distance;
pub mod header;
pub mod message;

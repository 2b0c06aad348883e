// Mode S: the remainder of a message, its header, its repair, and its text.
#![tactic(auto)]

pub mod avr;
pub mod crc;
pub mod header;
pub mod message;
pub mod repair;

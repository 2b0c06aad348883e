// The calls for C and Rust: lengths are checked, and answers are flat. `khlongrae_c` has each under its own name for their linkers.
#![tactic(auto)]

pub mod address;
pub mod decode;
pub mod header;
pub mod message;
mod settings;
pub mod spectrum;
pub mod tray;
pub mod version;
mod written;

// The static library for C and Rust: each call of `khlongrae` under its own name, with its clauses. What a call does and refuses stands
// there. A slice is a pointer and a length; a struct is answered by value.
#![tactic(auto)]

pub mod address;
pub mod decode;
pub mod header;
pub mod message;
pub mod spectrum;
pub mod tray;
pub mod version;

#![tactic(auto)]
// SHA-256 of FIPS 180-4, running and of a whole message.
mod bytes;
pub mod message;
mod padding;
pub mod running;
mod sha256;
mod words;

#![tactic(auto)]
// The stream program, on slices.
pub mod frame;
mod text;

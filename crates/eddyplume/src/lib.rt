#![tactic(auto)]
// The functions exported to C: numbers and byte slices only. A slice passes as a pointer and a length, an array as a pointer.
mod c_values;
mod digests;
mod lookups;
mod modes;

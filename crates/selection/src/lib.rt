#![tactic(auto)]
// Which signature item, parameters item, algorithm and list signature mode takes: 18 to 23.
//
// select      the caller's choice, and what is selected: 18, 19, 20
// items       the items of the two sequences
// parameters  the parameters item: 21, 22, 23
// value       the value that stands in a place
mod items;
mod parameters;
pub mod select;
mod value;

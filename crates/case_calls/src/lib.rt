#![tactic(auto)]
// What the cases of mac_cases call, and what is printed of it. Every public function prints and gives nothing back but the error of a write,
// so that there is nothing to promise of it: what it prints is tested by the program.
//
// calls          list mode and signature mode
// reading_kinds  the reading and the lookup
// frame_kind     the stream program
// print          bytes in hex
pub mod calls;
pub mod frame_kind;
mod print;
pub mod reading_kinds;

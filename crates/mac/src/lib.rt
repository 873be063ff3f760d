#![tactic(auto)]
// The MAC of DICOM C.12.1.1.3: list mode and signature mode.
//
// list_mode, signature_mode  the calls: what is signed, and where it lies; stream::walk measures and writes it
// verdict                    9; the digest by its algorithm; same or differs
pub mod list_mode;
pub mod signature_mode;
pub mod verdict;

#![tactic(auto)]
// Theorems about list mode and signature mode: definitions and proofs alone, with no function.

#![tactic(auto)]

// The model held against recorded answers of the Rust, under specs/ and proofs/. No code.

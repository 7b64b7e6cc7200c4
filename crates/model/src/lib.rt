#![tactic(auto)]

// The whole replica as definitions, from document 01 and the paper, readable beside the Rust, and document 01's examples computed by them. No code.

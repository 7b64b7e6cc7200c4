// The journal that an owner keeps while the ledger runs: what is appended call by call is the journal of the applied entries, under specs/ (what it says) and proofs/. No code.
#![tactic(auto)]

#![tactic(auto)]

// The offset of a malformed frame, as the definition gives it, held against ../shared/vectors/orders/order01-offsets.txt, under specs/ and
// proofs/. That list was written by a second reading of document 02. No code.

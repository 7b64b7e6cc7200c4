#![tactic(auto)]

// The model and the client's definitions held against a choice of ../shared/vectors/answers.trace, under specs/ and proofs/. That trace isn't the
// Rust's: it was written by a second reading of document 01, which agrees with the unchanged Rust on every call that isn't refused. It has what the
// Rust can't show, refusals 1, 2, 9 and 10 above all, and for the client 2, 9 and 11. A run ends before a call that meets the exception: a replica's
// own id never joins the set of StartViewChange. Of ../shared/vectors/orders/order02.trace, written with it, every call is here; of order04.trace beside
// it, whose calls show the takings, every run but one with a log of a thousand entries. No code.

#![tactic(auto)]

// Tables as the definitions export and import them, held against ../shared/vectors/orders/order05-csv.txt, under specs/ and proofs/. That list was written by
// a second reading of document 02. No code. Each statement says the whole answer, and what stands afterwards in what was lent; only of a bad row its first bad
// field, what is wrong with that and its place are passed over, since they aren't recorded.
// A room of a thousand million bytes is stated as one of 99, which no answer with that room fills. Left out are three exports of 4,096 entries and more: two
// answers are recorded as digests, the third refuses an entry as others do. tools/recorded-csv counts them.

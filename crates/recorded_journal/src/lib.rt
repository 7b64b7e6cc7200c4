#![tactic(auto)]

// Journals as the definitions write and read them, held against ../shared/vectors/orders/order03-journal.txt, under specs/ and proofs/. That list was
// written by a second reading of document 02. No code. Each statement says the whole answer, and what stands afterwards in what was lent. One number of it
// isn't recorded: what is wrong with a bad frame, which tools/journals.py works out.
// Left out are the calls whose room is a thousand million bytes: their answers are recorded as digests, or are those of the same calls with little room.
// So are those of more than 1,000 entries that show nothing new, since each takes seconds. tools/recorded-journal counts both. The tests of the Rust crate
// give all calls of the list to the C boundary.

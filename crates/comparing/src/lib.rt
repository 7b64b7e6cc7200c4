// Recorded calls compared with calls that were made: a line's words, FNV-1a digests, what a call has to leave alone, the answer line, the state line and the lines
// behind it. Nothing is read or written here: what is compared, and what the comparison says, is promised exactly. The format is ../shared/vectors/FORMAT.md, with the lines
// `+` and `$` of host/README.md.
#![tactic(auto)]

pub mod words; // a line's words, as numbers and as bytes
pub mod digest; // FNV-1a digests
pub mod memory; // the lent runs, kept in one array
pub mod fields; // the state line
pub mod answer; // the answer line, and the lines behind the state line

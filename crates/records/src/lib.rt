// Meshes, plans and sessions, also those from before wavelength 2, as records: read from standard input in the bytes of docs/CORPUS.md,
// and the digest of one.
#![tactic(auto)]

pub mod digest;
pub mod entries;
pub mod old;
pub mod session;

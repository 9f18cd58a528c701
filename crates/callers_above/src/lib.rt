//! Callers of sets, sparse vectors, runs and sessions. The contract of each says in its own words
//! what is proved of it. When a call fails is proved only where a clause such as `memory` says so.
#![tactic(auto)]

pub mod combined;
pub mod served;
pub mod session;
pub mod sets;
pub mod standing;
pub mod vectors;

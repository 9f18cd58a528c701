//! Sparse vectors of integers over places from 0 to 2^64 - 1, on a map from places to values.
#![tactic(auto)]

mod cause;
pub mod laws;
mod vector;

pub use cause::SparseCause;
pub use vector::SparseVec;

//! Callers of maps, by kind of call. The contract of each says in its own words what is proved of
//! it. When a call fails is proved only where a clause such as `refused` says so. Those of `walks`
//! that write by `iter_mut` or `values_mut` don't say which values they write, since no clause of
//! these two calls says so.
#![tactic(auto)]

pub mod bindings;
pub mod copies;
pub mod counts;
pub mod entries;
pub mod insertions;
pub mod reserved;
pub mod retained;
pub mod tables;
pub mod walks;

//! Callers of maps, by task. The contract of each says in its own words what is proved of it. When
//! a call fails is proved only where a clause such as `refused` says so. Some functions of
//! `kit_map` have no contract: they only show that a source for the kit's map compiles.
#![tactic(auto)]

pub mod caches;
pub mod equality;
pub mod graph;
pub mod kit_map;
pub mod moves;
pub mod sums;

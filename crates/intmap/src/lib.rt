//! A hash map from integer keys. Its iteration order and its capacity depend on its calls alone:
//! there is no random seed.
#![tactic(auto)]

mod decimal;
pub mod entry;
pub mod laws;
mod load;
mod map;
mod refusal;

pub use decimal::key_of;
pub use intmap_table::{IntKey, steps};
pub use map::json::JsonCause;
pub use map::{IntMap, iter};
pub use refusal::{Cause, Refused, RefusedPair};

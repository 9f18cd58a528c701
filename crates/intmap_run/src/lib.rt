//! Lists of commands over a map, run in order.
//!
//! `run` makes one call on an `IntMap`, or on an entry of it, for each `Command`, and returns one
//! `Answer` per command. A `Judge` says what is seen of values on the way, and which pairs stay.
//! Whatever the commands are, the answers are ones that the rules for a plain list of pairs allow,
//! and the list at the end stands for the map at the end. This holds of every list that stands for
//! the map at the start. `laws` shows why any such list will do.
#![tactic(auto)]

mod answer;
mod command;
mod judge;
pub mod laws;
mod runner;

pub use answer::Answer;
pub use command::Command;
pub use judge::Judge;
pub use runner::run;

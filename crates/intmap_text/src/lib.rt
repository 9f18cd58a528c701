//! Commands and answers of a run as text, and a session from lines to lines.
//!
//! `read_line` says which command a line spells, and `print_answer` writes an answer. `serve` reads
//! a text to its end, runs the commands in its lines on an empty map, and writes one line for each
//! answer. The caller provides the reader, the writers and the allocator: a program passes the real
//! streams, a test passes streams in memory or streams that fail. Keys and values are `u64`. The
//! contracts say which bytes are a command, and fix each byte of an answer that a successful call
//! writes. Of the output of a failed call they say at most that it is as it was, and outside of
//! this crate nothing of the text that `serve` then writes on `faults`.
#![tactic(auto)]

mod command;
mod fault;
mod judge;
mod line;
mod number;
mod print;
mod session;
mod split;
mod word;

pub use judge::OddJudge;
pub use line::{Line, read_line};
pub use print::print_answer;
pub use session::serve;

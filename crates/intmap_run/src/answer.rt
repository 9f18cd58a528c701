//! The answers of commands.

use intmap::{Cause, RefusedPair};
use std::alloc::{Allocator, Global};

/// The answer of one command. `S` is the type of what the judge sees of a value.
#[derive(Drop)]
pub enum Answer<K, V, S, A: Allocator = Global> {
    /// The value of the key before the command, or `None` if the key was absent.
    Old(Option<V>),
    /// What the judge sees of the value of the key, or `None` if the key is absent.
    Seen(Option<S>),
    /// The command's own value, since the key is absent.
    Back(V),
    /// The key was new, and its pair was inserted.
    Fresh,
    /// The command is done, and has nothing to return.
    Done,
    /// Whether the key is present, whether it was new, whether there is no pair, or whether the
    /// number of pairs is what `len` says.
    Flag(bool),
    /// A number of pairs or slots, a load factor in thousandths, or the number of pairs for each
    /// slot in thousandths.
    Number(u128),
    /// Each key of the walk, in its order, with what the judge sees of its value.
    Walk(Vec<(K, S), A>),
    /// Each key of the walk, in its order.
    Keys(Vec<K, A>),
    /// What the judge sees of each value of the walk, in its order.
    Values(Vec<S, A>),
    /// The pairs that were removed, in the order of the walk.
    Pairs(Vec<(K, V), A>),
    /// Each number of pairs above 1 that a slot holds, with the number of slots that hold exactly
    /// that many.
    Sizes(Vec<(u64, u64), A>),
    /// The first of several pairs whose insertion failed, with the cause and the number of pairs
    /// that were inserted before it.
    Stopped(RefusedPair<K, V>),
    /// The command failed, and left the walk, the capacity and the load factor as they were.
    Refused {
        /// Why it failed.
        cause: Cause,
        /// The command's own value, returned to the caller, or `None` if the command has none.
        value: Option<V>,
    },
}

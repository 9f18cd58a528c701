//! Why a call failed, and what it returns to the caller.
ghost use Rattle.std.specs.Prelude.{◌≡◌};

use std::alloc::AllocError;
use std::error::Error;
use std::fmt;

/// Why a call failed.
#[derive(Clone, Copy, PartialEq, Eq, Debug)]
pub enum Cause {
    /// An allocation failed, or some 2^48 pairs would lie behind the first ones of their slots, for
    /// which no process has memory today.
    Memory,
    /// The map would need a length above 2^64 - 1, or a capacity above 2^63 slots.
    TooLarge,
}

impl fmt::Display for Cause {
    fn fmt<W: fmt::Write>(&self, f: &mut fmt::Formatter<W>) -> fmt::Result {
        match self {
            Cause::Memory => write!(f, "out of memory"),
            Cause::TooLarge => write!(f, "too large"),
        }
    }
}

impl Error for Cause {}

/// A value that could not be put into a map, with the cause.
///
/// ```text
/// let mut map = IntMap::new(alloc)?;
/// let back = match map.insert(21, 'a') {
///     Ok(_) => None,
///     Err(Refused { value, cause }) => Some((value, cause)),
/// };
/// back    // None
/// ```
#[derive(Debug, Drop)]
pub struct Refused<V> {
    /// The value, returned to the caller.
    pub value: V,
    /// Why the call failed.
    pub cause: Cause,
}

impl<V: Drop> fmt::Display for Refused<V> {
    fn fmt<W: fmt::Write>(&self, f: &mut fmt::Formatter<W>) -> fmt::Result {
        write!(f, "the value could not be inserted: {}", self.cause)
    }
}

impl<V: fmt::Debug + Drop> Error for Refused<V> {}

/// The cause alone. With `?`, a caller that returns a `Cause` drops the value.
impl<V: Drop> From<Refused<V>> for Cause {
    ghost from_gives = { λ refused cause. cause ≡ refused.cause };

    fn from(refused: Refused<V>) -> Cause {
        refused.cause
    }
}

/// A failed allocation. With `?`, a caller that allocates beside the map returns a `Cause` too.
impl From<AllocError> for Cause {
    ghost use Rattle.intmap.specs.declared.refusal.Cause.{Cause};

    ghost from_gives = { λ _ cause. cause ≡ Cause.Memory };

    fn from(_: AllocError) -> Cause {
        Cause::Memory
    }
}

/// The pair at which the insertion of several pairs failed, with the cause and the number of pairs
/// that were inserted before it.
///
/// ```text
/// let mut map = IntMap::new(alloc)?;
/// let inserted = match map.extend([(21, 'a'), (22, 'b')].into_iter()) {
///     Ok(()) => 2,
///     Err(RefusedPair { applied, .. }) => applied,
/// };
/// inserted    // 2
/// ```
#[derive(Debug, Drop)]
pub struct RefusedPair<K, V> {
    /// The key of the pair.
    pub key: K,
    /// Its value, returned to the caller.
    pub value: V,
    /// How many pairs were inserted before this one, or 2^64 - 1 if there were more.
    pub applied: usize,
    /// Why its insertion failed.
    pub cause: Cause,
}

impl<K: Drop, V: Drop> fmt::Display for RefusedPair<K, V> {
    fn fmt<W: fmt::Write>(&self, f: &mut fmt::Formatter<W>) -> fmt::Result {
        write!(
            f,
            "a pair could not be inserted, after {} others: {}",
            self.applied, self.cause
        )
    }
}

impl<K: fmt::Debug + Drop, V: fmt::Debug + Drop> Error for RefusedPair<K, V> {}

/// The cause alone. With `?`, a caller that returns a `Cause` drops the pair.
impl<K: Drop, V: Drop> From<RefusedPair<K, V>> for Cause {
    ghost from_gives = { λ refused cause. cause ≡ refused.cause };

    fn from(refused: RefusedPair<K, V>) -> Cause {
        refused.cause
    }
}

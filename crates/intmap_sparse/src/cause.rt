//! Why an addition failed.
ghost use Rattle.std.specs.Prelude.{◌≡◌};

use intmap::Cause;
use std::error::Error;
use std::fmt;

/// Why [`SparseVec::add`](crate::SparseVec::add) failed.
#[derive(Clone, Copy, PartialEq, Eq, Debug)]
pub enum SparseCause {
    /// An insertion failed with [`Cause::Memory`].
    Memory,
    /// The vector would store more than 2^64 - 1 places, or need more than 2^63 slots.
    TooLarge,
    /// The sum isn't an `i64`.
    Overflow,
}

impl fmt::Display for SparseCause {
    fn fmt<W: fmt::Write>(&self, f: &mut fmt::Formatter<W>) -> fmt::Result {
        match self {
            SparseCause::Memory => write!(f, "out of memory"),
            SparseCause::TooLarge => write!(f, "too large"),
            SparseCause::Overflow => write!(f, "the sum does not fit in 64 bits"),
        }
    }
}

impl Error for SparseCause {}

impl From<Cause> for SparseCause {
    ghost use Rattle.intmap_sparse.specs.Causes.{sparse_cause};

    ghost from_gives = { λ cause sparse. sparse ≡ sparse_cause cause };

    fn from(cause: Cause) -> SparseCause {
        match cause {
            Cause::Memory => SparseCause::Memory,
            Cause::TooLarge => SparseCause::TooLarge,
        }
    }
}

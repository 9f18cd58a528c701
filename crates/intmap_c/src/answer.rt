//! What calls return to C.
ghost use Rattle.std.specs.Prelude.{◌≡◌};
ghost use Rattle.intmap_c.specs.Answers.{no_pair, no_value, pair_found, value_found};
ghost use Rattle.intmap_c.specs.Statuses.{failed_status};

use intmap::Cause;

// These are the statuses of intmap.h.

/// The call did what it says.
pub const OK: i32 = 0;

/// The key, or a pair, was absent before the call.
pub const ABSENT: i32 = 0;

/// The key, or a pair, was present before the call.
pub const PRESENT: i32 = 1;

/// The call failed: an allocation failed.
pub const NO_MEMORY: i32 = -1;

/// The call failed: the map would be too large.
pub const TOO_LARGE: i32 = -2;

/// A value, if there is one.
#[repr(C)]
#[derive(Drop)]
pub struct FoundValue {
    /// The value if the status is `PRESENT`, and otherwise 0.
    pub value: u64,
    /// `PRESENT`, `ABSENT`, or why the call failed.
    pub status: i32,
}

/// A key with its value.
#[repr(C)]
#[derive(Clone, Copy)]
pub struct Pair {
    /// The key.
    pub key: u64,
    /// Its value.
    pub value: u64,
}

/// The pair as C has it.
impl From<(u64, u64)> for Pair {
    ghost use Rattle.intmap_c.specs.Answers.{pair_of};

    ghost from_gives = { λ pair made. made ≡ pair_of pair };

    fn from(pair: (u64, u64)) -> Pair {
        Pair {
            key: pair.0,
            value: pair.1,
        }
    }
}

/// A pair, if there is one.
#[repr(C)]
#[derive(Drop)]
pub struct FoundPair {
    /// The pair if the status is `PRESENT`, and otherwise zeros.
    pub pair: Pair,
    /// `PRESENT` or `ABSENT`.
    pub status: i32,
}

impl FoundValue {
    /// The answer of a call that found a value or none.
    pub(crate) fn of(found: Option<u64>) -> FoundValue
        ensures { result ≡ value_found found }
    {
        match found {
            Some(value) => FoundValue {
                value,
                status: PRESENT,
            },
            None => FoundValue::none(ABSENT),
        }
    }

    /// The answer of a call that has no value.
    pub(crate) fn none(status: i32) -> FoundValue
        ensures { result ≡ no_value status }
    {
        FoundValue { value: 0, status }
    }
}

impl FoundPair {
    /// The answer of a call that found a pair or none.
    pub(crate) fn of(found: Option<(u64, u64)>) -> FoundPair
        ensures { result ≡ pair_found found }
    {
        match found {
            Some((key, value)) => FoundPair {
                pair: Pair { key, value },
                status: PRESENT,
            },
            None => FoundPair::none(ABSENT),
        }
    }

    /// The answer of a call that has no pair.
    pub(crate) fn none(status: i32) -> FoundPair
        ensures { result ≡ no_pair status }
    {
        FoundPair {
            pair: Pair { key: 0, value: 0 },
            status,
        }
    }
}

/// The status of a failed call.
pub(crate) fn status_of(cause: Cause) -> i32
    ensures { result ≡ failed_status cause }
{
    match cause {
        Cause::Memory => NO_MEMORY,
        Cause::TooLarge => TOO_LARGE,
    }
}

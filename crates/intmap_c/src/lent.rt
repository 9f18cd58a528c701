//! Maps that are lent to be read, to any number of calls at once.
ghost use Rattle.std.specs.Prelude.{◌≡◌, None, Some, MatchOption};
ghost use Rattle.intmap_c.specs.Handles.{MaybeMap};
ghost use Rattle.intmap_c.specs.Loans.{shares_map};

use intmap::IntMap;
use std::marker::{Model, PhantomData};

/// The word of a handle, for the calls that leave its map in place.
#[repr(C)]
pub struct Word {
    pub(crate) at: *mut u8,
}

/// A map that is lent, or none.
#[derive(Drop)]
pub(crate) struct LentMap<'a> {
    pub(crate) at: *mut u8,
    pub(crate) life: PhantomData<&'a u8>,
    ghost value: { MaybeMap.Denot } by { MaybeMap.coded },
}

impl<'a> Model for LentMap<'a> {
    ghost also_owns = { λ lent. shares_map lent.at lent.value 'a };
}

impl<'a> LentMap<'a> {
    /// The map, if there is one.
    pub(crate) fn map(self) -> Option<&'a IntMap<u64, u64>>
        ensures { MatchOption result (self.entry.value ≡ None)
            (λ map. self.entry.value ≡ Some map.now) }
    {
        let LentMap { at, life: _ } = self;
        if at.is_null() {
            return None;
        }
        let at = at as *const IntMap<u64, u64>;
        Some(unsafe { &*at })
    }
}

//! One word that C holds: a map in memory, or null if there is none.
ghost use Rattle.std.specs.Prelude.{◌≡◌, None, Some, IfSome, MatchOption};
ghost use Rattle.intmap_c.specs.Calls.{map_of};
ghost use Rattle.intmap_c.specs.Handles.{MaybeMap, owns_map};

use crate::unboxed::Unboxed;
use intmap::IntMap;
use std::alloc::Global;
use std::marker::Model;
use std::mem::replace;
use std::ptr::null_mut;

/// A map, or none. It isn't dropped: before a handle is given up, its map is taken out.
#[repr(C)]
pub struct Handle {
    at: *mut u8,
    ghost value: { MaybeMap.Denot } by { MaybeMap.coded },
}

impl Model for Handle {
    ghost also_owns = { λ handle. owns_map handle.at handle.value };
}

// A map may be used in another thread, and any thread may free its block.
unsafe impl Send for Handle {}

impl Handle {
    /// The handle of no map.
    pub(crate) fn none() -> Handle
        ensures { result.value ≡ None }
    {
        Handle { at: null_mut() }
    }

    /// The handle of a map.
    pub(crate) fn of(map: Unboxed<IntMap<u64, u64>, Global>) -> Handle
        ensures { result.value ≡ Some map.value }
    {
        let Unboxed { at, alloc: _ } = map;
        Handle { at: at as *mut u8 }
    }

    /// Gives up the handle of no map.
    pub(crate) fn give_up(self)
        requires { self.value ≡ None }
    {
        let Handle { at: _ } = self;
    }

    /// The map of the handle, if it has one.
    pub(crate) fn into_map(self, alloc: Global) -> Option<Unboxed<IntMap<u64, u64>, Global>>
        ensures { MatchOption result (self.value ≡ None) (λ map. self.value ≡ Some map.value) }
    {
        let Handle { at } = self;
        if at.is_null() {
            return None;
        }
        let at = at as *mut IntMap<u64, u64>;
        Some(Unboxed { at, alloc })
    }
}

/// Takes the map out of the handle, which then has none.
pub(crate) fn take(handle: &mut Handle, alloc: Global) -> Option<Box<IntMap<u64, u64>>>
    ensures left { handle.new.value ≡ None }
    ensures taken { MatchOption result (handle.old.value ≡ None)
        (λ map. handle.old.value ≡ Some map.value) }
{
    match replace(handle, Handle::none()).into_map(alloc) {
        Some(map) => Some(map.into_box()),
        None => None,
    }
}

/// Takes the map out of the handle, which then has none. If there is none, it makes a new one, for
/// which there may be no memory.
pub(crate) fn take_or_make(handle: &mut Handle, alloc: Global) -> Option<Box<IntMap<u64, u64>>>
    ensures left { handle.new.value ≡ None }
    ensures taken { MatchOption result (handle.old.value ≡ None)
        (λ map. map.value ≡ map_of handle.old.value) }
{
    if let Some(map) = take(handle, alloc) {
        return Some(map);
    }
    make_first(alloc)
}

/// Makes a new map, for which there may be no memory. It stands apart, so that a call with a map
/// saves no registers for it.
#[inline(never)]
fn make_first(alloc: Global) -> Option<Box<IntMap<u64, u64>>>
    ensures { IfSome result (λ map. map.value ≡ map_of None) }
{
    match IntMap::new(alloc) {
        Ok(map) => Box::new(alloc, map).ok(),
        Err(_) => None,
    }
}

/// Puts the map into the handle, which has none.
pub(crate) fn put(handle: &mut Handle, map: Box<IntMap<u64, u64>>)
    requires { handle.old.value ≡ None }
    ensures { handle.new.value ≡ Some map.value }
{
    replace(handle, Handle::of(Unboxed::of(map))).give_up();
}

//! Calls that make and free maps.
ghost use Rattle.std.specs.Prelude.{◌≡◌, ◌⊎◌, ◌↔◌, ◌^◌, ◌<◌, ℕ, max, None, Some, MatchResult};
ghost use Rattle.intmap.specs.Growth.{IsLeastPower};
ghost use Rattle.intmap.specs.Map.{empty_map, least_capacity};
ghost use Rattle.intmap_c.specs.Answers.{IsFailed};
ghost use Rattle.intmap_c.specs.Statuses.{ok_status, no_memory_status, too_large_status};

use crate::answer::{NO_MEMORY, OK, status_of};
use crate::handle::{Handle, put, take};
use intmap::{Cause, IntMap};
use std::alloc::Global;

/// Puts a new map into the handle and returns `OK`. If the map could not be made, or there is no
/// memory for its block, it returns why, and the handle stays.
pub(crate) fn keep(alloc: Global, handle: &mut Handle, made: Result<IntMap<u64, u64>, Cause>) -> i32
    ensures { MatchResult made
        (λ map. ((result ≡ ok_status) × (handle.new.value ≡ Some map))
        ⊎ ((result ≡ no_memory_status) × (handle.new.value ≡ handle.old.value)))
        (λ cause. (handle.new.value ≡ handle.old.value) × IsFailed result
        × ((result ≡ too_large_status) ↔ (cause ≡ Cause.TooLarge))) }
{
    match made {
        Ok(map) => match Box::new(alloc, map) {
            Ok(map) => {
                let old = take(handle, alloc);
                put(handle, map);
                drop(old);
                OK
            }
            Err(_) => NO_MEMORY,
        },
        Err(cause) => status_of(cause),
    }
}

/// Makes an empty map, with a load factor of 909 thousandths, and returns `OK`. Its number of slots
/// is the least power of two that is at least `slots`, and at least 2. If the handle had a map,
/// that map is freed. It fails with `TOO_LARGE` if and only if `slots` is above 2^63, and otherwise
/// with `NO_MEMORY` if an allocation fails. A failed call leaves the handle.
#[unsafe(no_mangle)]
pub extern "C" fn intmap_with_slots(alloc: Global, handle: &mut Handle, slots: usize) -> i32
    ensures outcome { ((result ≡ ok_status)
        × ((D : ℕ) × IsLeastPower (max slots least_capacity) D
        × (handle.new.value ≡ Some (empty_map D))))
        ⊎ (IsFailed result × (handle.new.value ≡ handle.old.value)) }
    ensures too_large { (result ≡ too_large_status) ↔ (2 ^ 63 < slots) }
{
    keep(alloc, handle, IntMap::with_capacity(alloc, slots))
}

/// Frees the map of the handle, which then has none.
/// That the map's memory is freed is tested, not proved.
#[unsafe(no_mangle)]
pub extern "C" fn intmap_free(alloc: Global, handle: &mut Handle)
    ensures { handle.new.value ≡ None }
{
    drop(take(handle, alloc));
}

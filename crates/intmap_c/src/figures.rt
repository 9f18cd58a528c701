//! The number of slots and the load factor, as C sets them.
ghost use Rattle.std.specs.Prelude.{◌≡◌};
ghost use Rattle.intmap_c.specs.Calls.{MakesNone, MakesNoneWithRoom, MakesRoom, MakesRoomToShare, OnMapOrNew, Reserves, SetsFactor};
ghost use Rattle.intmap_c.specs.Statuses.{no_memory_status};

use crate::answer::{NO_MEMORY, OK, TOO_LARGE, status_of};
use crate::handle::{Handle, put, take_or_make};
use intmap::IntMap;
use std::alloc::Global;

/// Makes slots, and returns what [`intmap_reserve_slots`] returns.
fn reserve_slots(map: &mut IntMap<u64, u64>, additional: usize) -> i32
    ensures { Reserves map.old map.new additional result }
{
    match map.reserve(additional) {
        Ok(()) => OK,
        Err(cause) => status_of(cause),
    }
}

/// The status where no first map could be made, which was to have slots for `additional` pairs.
fn none_made(additional: usize) -> i32
    ensures { MakesNone additional result }
{
    if additional > 1 << 63 {
        return TOO_LARGE;
    }
    NO_MEMORY
}

/// The greatest number of pairs that meet the load factor of a new map in 2^63 slots.
const MOST_FIRST_PAIRS: usize = 8393268553537845985;

/// The status where no first map could be made, which was to have room for `more` pairs.
fn none_made_with_room(more: usize) -> i32
    ensures { MakesNoneWithRoom more result }
{
    if more > MOST_FIRST_PAIRS {
        return TOO_LARGE;
    }
    NO_MEMORY
}

/// Makes room for pairs, and returns what [`intmap_reserve`] returns.
fn reserve(map: &mut IntMap<u64, u64>, more: usize) -> i32
    ensures { MakesRoom map.old map.new more result }
{
    match map.reserve_pairs(more) {
        Ok(()) => OK,
        Err(cause) => status_of(cause),
    }
}

/// Makes room for pairs, and returns what [`intmap_reserve_insertions`] returns.
fn reserve_insertions(map: &mut IntMap<u64, u64>, more: usize) -> i32
    ensures { MakesRoomToShare map.old map.new more result }
{
    match map.reserve_insertions(more) {
        Ok(()) => OK,
        Err(cause) => status_of(cause),
    }
}

/// Sets the load factor, and returns what [`intmap_set_load_factor`] returns.
fn set_load_factor(map: &mut IntMap<u64, u64>, thousandths: usize) -> i32
    ensures { SetsFactor map.old map.new thousandths result }
{
    match map.set_load_factor(thousandths) {
        Ok(()) => OK,
        Err(cause) => status_of(cause),
    }
}

/// Makes slots, and returns `OK`. If the slots are fewer than the pairs and `additional` together,
/// their number becomes the least power of two that isn't below that sum. It fails with `TOO_LARGE`
/// if and only if the sum is above 2^63, and otherwise with `NO_MEMORY` if an allocation fails. A
/// failed call leaves the map.
#[unsafe(no_mangle)]
pub extern "C" fn intmap_reserve_slots(alloc: Global, handle: &mut Handle, additional: usize) -> i32
    ensures { OnMapOrNew handle.old.value handle.new.value (MakesNone additional result)
        (λ m n. Reserves m n additional result) }
{
    match take_or_make(handle, alloc) {
        None => none_made(additional),
        Some(mut map) => {
            let status = reserve_slots(&mut map, additional);
            put(handle, map);
            status
        }
    }
}

/// Doubles the slots until their number meets the load factor with `more` pairs more, and returns
/// `OK`. It fails with `TOO_LARGE` if and only if there would be more than 2^64 - 1 pairs, or that
/// takes more than 2^63 slots, and otherwise with `NO_MEMORY` if an allocation fails. A failed call
/// leaves the map.
#[unsafe(no_mangle)]
pub extern "C" fn intmap_reserve(alloc: Global, handle: &mut Handle, more: usize) -> i32
    ensures { OnMapOrNew handle.old.value handle.new.value (MakesNoneWithRoom more result)
        (λ m n. MakesRoom m n more result) }
{
    match take_or_make(handle, alloc) {
        None => none_made_with_room(more),
        Some(mut map) => {
            let status = reserve(&mut map, more);
            put(handle, map);
            status
        }
    }
}

/// Does what [`intmap_reserve`] does, and allocates memory for `more` pairs that share a slot with
/// another. It fails as that call does, and also, with `NO_MEMORY`, if that allocation fails. A
/// failed call leaves the map.
#[unsafe(no_mangle)]
pub extern "C" fn intmap_reserve_insertions(alloc: Global, handle: &mut Handle, more: usize) -> i32
    ensures { OnMapOrNew handle.old.value handle.new.value (MakesNoneWithRoom more result)
        (λ m n. MakesRoomToShare m n more result) }
{
    match take_or_make(handle, alloc) {
        None => none_made_with_room(more),
        Some(mut map) => {
            let status = reserve_insertions(&mut map, more);
            put(handle, map);
            status
        }
    }
}

/// Sets the load factor in thousandths, doubles the slots until their number meets it, and returns
/// `OK`. It fails with `TOO_LARGE` if and only if that takes more than 2^63 slots, and otherwise
/// with `NO_MEMORY` if an allocation fails. A failed call leaves the map and its load factor.
#[unsafe(no_mangle)]
pub extern "C" fn intmap_set_load_factor(
    alloc: Global,
    handle: &mut Handle,
    thousandths: usize,
) -> i32
    ensures { OnMapOrNew handle.old.value handle.new.value (result ≡ no_memory_status)
        (λ m n. SetsFactor m n thousandths result) }
{
    match take_or_make(handle, alloc) {
        None => NO_MEMORY,
        Some(mut map) => {
            let status = set_load_factor(&mut map, thousandths);
            put(handle, map);
            status
        }
    }
}

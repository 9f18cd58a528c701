//! Calls that write one key.
ghost use Rattle.std.specs.Prelude.{◌≡◌};
ghost use Rattle.intmap_c.specs.Answers.{no_value};
ghost use Rattle.intmap_c.specs.Calls.{AddsOrInserts, AddsPresent, Inserts, InsertsNew, OnMap, OnMapOrNew, Removes, Replaces};
ghost use Rattle.intmap_c.specs.Statuses.{absent_status, no_memory_status};

use crate::answer::{ABSENT, FoundValue, NO_MEMORY, PRESENT, status_of};
use crate::handle::{Handle, put, take, take_or_make};
use intmap::IntMap;
use intmap::entry::Entry;
use std::alloc::Global;
use std::mem;

/// Inserts the pair, and returns what [`intmap_insert`] returns.
fn insert(map: &mut IntMap<u64, u64>, key: u64, value: u64) -> FoundValue
    ensures { Inserts map.old map.new key value result }
{
    match map.insert(key, value) {
        Ok(old) => FoundValue::of(old),
        Err(refused) => FoundValue::none(status_of(refused.cause)),
    }
}

/// Finds the key or inserts the pair, and returns what [`intmap_find_or_insert`] returns.
fn find_or_insert(map: &mut IntMap<u64, u64>, key: u64, value: u64) -> i32
    ensures { InsertsNew map.old map.new key value result }
{
    match map.insert_checked(key, value) {
        Ok(true) => ABSENT,
        Ok(false) => PRESENT,
        Err(refused) => status_of(refused.cause),
    }
}

/// Replaces the value of a present key, and returns what [`intmap_replace`] returns.
fn replace(map: &mut IntMap<u64, u64>, key: u64, value: u64) -> FoundValue
    ensures { Replaces map.old map.new key value result }
{
    match map.get_mut(key) {
        Some(place) => FoundValue::of(Some(mem::replace(place, value))),
        None => FoundValue::of(None),
    }
}

/// Adds to the value of a present key, and returns what [`intmap_add_present`] returns.
fn add_present(map: &mut IntMap<u64, u64>, key: u64, more: u64) -> FoundValue
    ensures { AddsPresent map.old map.new key more result }
{
    match map.get_mut(key) {
        Some(place) => {
            let old = *place;
            *place = old.wrapping_add(more);
            FoundValue::of(Some(old))
        }
        None => FoundValue::of(None),
    }
}

/// Adds to the value of a key, or inserts the key. It returns what [`intmap_add_or_insert`]
/// returns.
fn add_or_insert(map: &mut IntMap<u64, u64>, key: u64, more: u64) -> FoundValue
    ensures { AddsOrInserts map.old map.new key more result }
{
    match map.entry(key) {
        Entry::Occupied(entry) => {
            let place = entry.into_mut();
            let old = *place;
            *place = old.wrapping_add(more);
            FoundValue::of(Some(old))
        }
        Entry::Vacant(entry) => match entry.insert_entry(more) {
            Ok(entry) => {
                entry.leave();
                FoundValue::of(None)
            }
            Err(refused) => FoundValue::none(status_of(refused.cause)),
        },
    }
}

/// Removes the pair of the key, and returns what [`intmap_remove`] returns.
fn remove(map: &mut IntMap<u64, u64>, key: u64) -> FoundValue
    ensures { Removes map.old map.new key result }
{
    FoundValue::of(map.remove(key))
}

/// Inserts the pair of the key and the value at the end of its slot, and returns the value before.
/// The insertion of a present key never fails. The insertion of a new key fails with `TOO_LARGE` if
/// and only if the map has 2^64 - 1 pairs or would need more than 2^63 slots, and otherwise with
/// `NO_MEMORY` if an allocation fails. A failed call leaves the map.
#[unsafe(no_mangle)]
pub extern "C" fn intmap_insert(
    alloc: Global,
    handle: &mut Handle,
    key: u64,
    value: u64,
) -> FoundValue
    ensures { OnMapOrNew handle.old.value handle.new.value (result ≡ no_value no_memory_status)
        (λ m n. Inserts m n key value result) }
{
    match take_or_make(handle, alloc) {
        None => FoundValue::none(NO_MEMORY),
        Some(mut map) => {
            let answer = insert(&mut map, key, value);
            put(handle, map);
            answer
        }
    }
}

/// Finds the key, or inserts the pair if the key is absent, and returns whether the key was
/// present. A present key keeps its value. The insertion of a new key fails as [`intmap_insert`]
/// does.
#[unsafe(no_mangle)]
pub extern "C" fn intmap_find_or_insert(
    alloc: Global,
    handle: &mut Handle,
    key: u64,
    value: u64,
) -> i32
    ensures { OnMapOrNew handle.old.value handle.new.value (result ≡ no_memory_status)
        (λ m n. InsertsNew m n key value result) }
{
    match take_or_make(handle, alloc) {
        None => NO_MEMORY,
        Some(mut map) => {
            let status = find_or_insert(&mut map, key, value);
            put(handle, map);
            status
        }
    }
}

/// Replaces the value of a present key, whose pair keeps its place, and returns the value before.
/// It inserts nothing, and allocates nothing.
#[unsafe(no_mangle)]
pub extern "C" fn intmap_replace(
    alloc: Global,
    handle: &mut Handle,
    key: u64,
    value: u64,
) -> FoundValue
    ensures { OnMap handle.old.value handle.new.value (result ≡ no_value absent_status)
        (λ m n. Replaces m n key value result) }
{
    match take(handle, alloc) {
        None => FoundValue::of(None),
        Some(mut map) => {
            let answer = replace(&mut map, key, value);
            put(handle, map);
            answer
        }
    }
}

/// Adds to the value of a present key, modulo 2^64, and returns the value before. It inserts
/// nothing, looks the key up once, and allocates nothing.
#[unsafe(no_mangle)]
pub extern "C" fn intmap_add_present(
    alloc: Global,
    handle: &mut Handle,
    key: u64,
    more: u64,
) -> FoundValue
    ensures { OnMap handle.old.value handle.new.value (result ≡ no_value absent_status)
        (λ m n. AddsPresent m n key more result) }
{
    match take(handle, alloc) {
        None => FoundValue::of(None),
        Some(mut map) => {
            let answer = add_present(&mut map, key, more);
            put(handle, map);
            answer
        }
    }
}

/// Adds to the value of a present key as [`intmap_add_present`] does, or inserts an absent key with
/// `more`. It looks the key up once. The insertion of a new key fails as [`intmap_insert`] does.
#[unsafe(no_mangle)]
pub extern "C" fn intmap_add_or_insert(
    alloc: Global,
    handle: &mut Handle,
    key: u64,
    more: u64,
) -> FoundValue
    ensures { OnMapOrNew handle.old.value handle.new.value (result ≡ no_value no_memory_status)
        (λ m n. AddsOrInserts m n key more result) }
{
    match take_or_make(handle, alloc) {
        None => FoundValue::none(NO_MEMORY),
        Some(mut map) => {
            let answer = add_or_insert(&mut map, key, more);
            put(handle, map);
            answer
        }
    }
}

/// Removes the pair of the key, and returns its value. The last pair of the slot takes its place.
#[unsafe(no_mangle)]
pub extern "C" fn intmap_remove(alloc: Global, handle: &mut Handle, key: u64) -> FoundValue
    ensures { OnMap handle.old.value handle.new.value (result ≡ no_value absent_status)
        (λ m n. Removes m n key result) }
{
    match take(handle, alloc) {
        None => FoundValue::of(None),
        Some(mut map) => {
            let answer = remove(&mut map, key);
            put(handle, map);
            answer
        }
    }
}

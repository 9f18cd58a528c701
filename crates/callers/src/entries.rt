//! Calls by entries: what they return, and what the map is once its entry has ended.
ghost use Rattle.std.specs.Prelude.{◌≡◌, IfErr, IfOk, IfSome, None, OnErr, OnOk, Some, unwrap_or};
ghost use Rattle.intmap.specs.Bindings.{IsPresent, Updates, value_of};
ghost use Rattle.intmap.specs.Map.{after_search, written};

use intmap::entry::Entry;
use intmap::{Cause, IntKey, IntMap, Refused};
use std::alloc::Allocator;

/// If the key is present, sets its value in its place, and returns the value before. If it is
/// absent, only the count of compared keys is changed.
pub fn replace_by_entry<K: IntKey, V: Drop, A: Allocator + Copy>(
    map: &mut IntMap<K, V, A>,
    key: K,
    value: V,
) -> Option<V>
    ensures value { result ≡ value_of K.number_of map.old.walk key }
    ensures bound { (old : V) → value_of K.number_of map.old.walk key ≡ Some old
        → map.new ≡ written K.number_of (after_search K.number_of map.old key) key value }
    ensures missing { value_of K.number_of map.old.walk key ≡ None
        → map.new ≡ after_search K.number_of map.old key }
{
    match map.entry(key) {
        Entry::Occupied(mut entry) => {
            let old = entry.insert(value);
            entry.leave();
            Some(old)
        }
        Entry::Vacant(_entry) => None,
    }
}

/// Looks up the key, and changes only the count of compared keys.
pub fn search_by_entry<K: IntKey, V: Drop, A: Allocator + Copy>(map: &mut IntMap<K, V, A>, key: K)
    ensures { map.new ≡ after_search K.number_of map.old key }
{
    map.entry(key).into_map();
}

/// If the key is present, sets its number to 0. If it is absent, only the count of compared keys is
/// changed.
pub fn reset_by_entry<K: IntKey, A: Allocator + Copy>(map: &mut IntMap<K, u64, A>, key: K)
    ensures bound { (old : _) → value_of K.number_of map.old.walk key ≡ Some old
        → map.new ≡ written K.number_of (after_search K.number_of map.old key) key 0 }
    ensures missing { value_of K.number_of map.old.walk key ≡ None
        → map.new ≡ after_search K.number_of map.old key }
{
    let entry = map.entry(key).and_modify(
        |number: &mut u64|
            ensures { number.new ≡ 0 }
        {
            *number = 0;
        },
    );
    entry.into_map();
}

/// The value of the key, by an entry that is only dropped. Only the count of compared keys is
/// changed.
pub fn read_and_let_go<K: IntKey, V: Copy, A: Allocator + Copy>(
    map: &mut IntMap<K, V, A>,
    key: K,
) -> Option<V>
    ensures value { result ≡ value_of K.number_of map.old.walk key }
    ensures state { map.new ≡ after_search K.number_of map.old key }
{
    match map.entry(key) {
        Entry::Occupied(entry) => Some(*entry.get()),
        Entry::Vacant(_entry) => None,
    }
}

/// If the key is present, sets its value in its place, by an entry that is only dropped. If it is
/// absent, only the count of compared keys is changed.
pub fn write_and_let_go<K: IntKey, V: Drop, A: Allocator + Copy>(
    map: &mut IntMap<K, V, A>,
    key: K,
    value: V,
)
    ensures bound { (old : V) → value_of K.number_of map.old.walk key ≡ Some old
        → map.new ≡ written K.number_of (after_search K.number_of map.old key) key value }
    ensures missing { value_of K.number_of map.old.walk key ≡ None
        → map.new ≡ after_search K.number_of map.old key }
{
    match map.entry(key) {
        Entry::Occupied(mut entry) => *entry.get_mut() = value,
        Entry::Vacant(_entry) => (),
    }
}

// Values that are made if a key is absent, and entries that are kept or ended.

/// The value of the key. If the key is absent, the given value becomes its value first. Every other
/// key keeps its value.
///
/// It fails if the insertion fails, and returns the value. Every key then keeps its value.
pub fn value_or<K: IntKey, V: Copy, A: Allocator + Copy>(
    map: &mut IntMap<K, V, A>,
    key: K,
    value: V,
) -> Result<V, Refused<V>>
    ensures ok { IfOk result
        (λ now. now ≡ unwrap_or (value_of K.number_of map.old.walk key) value) }
    ensures updates { IfOk result
        (λ now. Updates K.number_of map.old.walk map.new.walk key (Some now)) }
    ensures err { OnErr result (map.new ≡ after_search K.number_of map.old key) }
    ensures value_returned { IfErr result (λ refused. refused.value ≡ value) }
{
    Ok(*map.entry(key).or_insert_with(|| value)?)
}

/// Sets the value of the key, whether it is present or not.
///
/// It fails if the insertion of a new key fails, and returns the value. Every key then keeps its
/// value.
pub fn set_by_entry<K: IntKey, V: Drop, A: Allocator + Copy>(
    map: &mut IntMap<K, V, A>,
    key: K,
    value: V,
) -> Result<(), Refused<V>>
    ensures ok { OnOk result (Updates K.number_of map.old.walk map.new.walk key (Some value)) }
    ensures err { OnErr result (map.new ≡ after_search K.number_of map.old key) }
    ensures value_returned { IfErr result (λ refused. refused.value ≡ value) }
{
    map.entry(key).insert_entry(value)?.leave();
    Ok(())
}

/// The key, if it is absent.
pub fn missing_key<K: IntKey, V, A: Allocator + Copy>(
    map: &mut IntMap<K, V, A>,
    key: K,
) -> Option<K>
    ensures missing { IfSome result (λ missing. (missing ≡ key)
        × (value_of K.number_of map.old.walk key ≡ None)) }
    ensures none { result ≡ None → IsPresent K.number_of map.old.walk key }
    ensures state { map.new ≡ after_search K.number_of map.old key }
{
    match map.entry(key) {
        Entry::Occupied(entry) => {
            entry.leave();
            None
        }
        Entry::Vacant(entry) => Some(entry.into_key()),
    }
}

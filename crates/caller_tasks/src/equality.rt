//! Maps that are compared: their pairs matter, and the slots and the order of the walk don't.
//! And documents that are the same after JSON.
ghost use Rattle.std.specs.Prelude.{◌&&◌, ◌+◌, ◌≡◌, ◌≤◌, IfOk, IsTrue, OnOk, ℕ, length, true};
ghost use Rattle.intmap.specs.Bindings.{value_of};
ghost use Rattle.intmap.specs.Equality.{maps_equal};
ghost use Rattle.intmap.specs.Json.{BindSameTrees};

use intmap::{Cause, IntKey, IntMap, JsonCause, laws};
use serde_json::Value;
use std::alloc::{Allocator, Global};

/// Clones the map, and returns whether the clone is equal to it, which it is.
///
/// It fails if the clone fails.
pub fn cloned_and_compared<A: Allocator + Copy>(map: &IntMap<u64, u64, A>) -> Result<bool, Cause>
    ensures { IfOk result (λ equal. equal ≡ true) }
{
    laws::equal_maps_bind_the_same::<u64, u64>();
    let clone = map.clone()?;
    Ok(clone == *map)
}

/// Sets the load factor, and makes a slot for each pair and for this number of further ones. Each
/// key keeps its value.
///
/// It fails if the map can't grow.
fn grow<A: Allocator + Copy>(
    map: &mut IntMap<u64, u64, A>,
    additional: usize,
    thousandths: usize,
) -> Result<(), Cause>
    ensures slots { OnOk result (length map.old.walk + additional ≤ map.new.capacity) }
    ensures factor { OnOk result (map.new.factor ≡ thousandths) }
    ensures values { (q : ℕ)
        → value_of (λ k. k) map.new.walk q ≡ value_of (λ k. k) map.old.walk q }
{
    map.set_load_factor(thousandths)?;
    map.reserve(additional)
}

/// Clones the map, changes the clone by `grow`, and returns whether it is still equal to the map,
/// which it is.
///
/// It fails if the clone fails, or if growing it does.
pub fn grown_and_compared<A: Allocator + Copy>(
    map: &IntMap<u64, u64, A>,
    additional: usize,
    thousandths: usize,
) -> Result<bool, Cause>
    ensures { IfOk result (λ equal. equal ≡ true) }
{
    laws::equal_maps_bind_the_same::<u64, u64>();
    let mut clone = map.clone()?;
    grow(&mut clone, additional, thousandths)?;
    Ok(clone == *map)
}

/// Whether a map is equal to itself, which it is if each value is.
pub fn is_equal_to_itself<K: IntKey, V: Eq, A: Allocator + Copy>(map: &IntMap<K, V, A>) -> bool
    ensures { result ≡ true }
{
    are_one(map, map)
}

/// Whether the other map is equal to this one. The result is the same as whether this one is equal
/// to the other.
pub fn is_equal_to_this<K: IntKey, V: PartialEq, A: Allocator + Copy>(
    map: &IntMap<K, V, A>,
    other: &IntMap<K, V, A>,
) -> bool
    ensures { result ≡ maps_equal K.number_of V.eq map.now other.now }
{
    are_one_turned(map, other)
}

/// Whether two maps are equal. If they are, they have the same number of pairs.
pub fn are_equal<K: IntKey, V: PartialEq, A: Allocator + Copy>(
    first: &IntMap<K, V, A>,
    second: &IntMap<K, V, A>,
) -> bool
    ensures value { result ≡ maps_equal K.number_of V.eq first.now second.now }
    ensures len { IsTrue result → length first.now.walk ≡ length second.now.walk }
{
    laws::equal_maps_are_as_long::<K, V>();
    let (_first, _second) = (first.len(), second.len());
    *first == *second
}

/// Whether three maps are equal, each to each other.
pub fn are_all_equal<K: IntKey, V: PartialEq, A: Allocator + Copy>(
    first: &IntMap<K, V, A>,
    second: &IntMap<K, V, A>,
    third: &IntMap<K, V, A>,
) -> bool
    ensures value { result ≡ (maps_equal K.number_of V.eq first.now second.now
        && maps_equal K.number_of V.eq second.now third.now) }
    ensures first_second { IsTrue result
        → IsTrue (maps_equal K.number_of V.eq first.now second.now) }
    ensures second_third { IsTrue result
        → IsTrue (maps_equal K.number_of V.eq second.now third.now) }
    ensures first_third { IsTrue result
        → IsTrue (maps_equal K.number_of V.eq first.now third.now) }
{
    are_three_one(first, second, third)
}

/// Whether a value is equal to itself.
fn are_one<T: Eq>(value: &T, same: &T) -> bool
    requires { same.now ≡ value.now }
    ensures { result ≡ true }
{
    *value == *same
}

/// Whether the other value is equal to this one.
fn are_one_turned<T: PartialEq>(value: &T, other: &T) -> bool
    ensures { result ≡ T.eq value.now other.now }
{
    *other == *value
}

/// Whether the first value is equal to the second, and this to the third.
fn are_three_one<T: PartialEq>(first: &T, second: &T, third: &T) -> bool
    ensures value { result ≡ (T.eq first.now second.now && T.eq second.now third.now) }
    ensures first_second { IsTrue result → IsTrue (T.eq first.now second.now) }
    ensures second_third { IsTrue result → IsTrue (T.eq second.now third.now) }
    ensures first_third { IsTrue result → IsTrue (T.eq first.now third.now) }
{
    *first == *second && *second == *third
}

// Documents by number, kept as JSON.

/// The documents, once they were written as JSON and read again: the same numbers have documents,
/// each the same one.
///
/// It fails if a document holds a float, or if there is no memory. The documents stay as they are.
pub fn written_and_read(
    alloc: Global,
    documents: &IntMap<u64, Value>,
) -> Result<IntMap<u64, Value>, JsonCause>
    ensures { IfOk result (λ read. BindSameTrees documents.now.walk read.walk) }
{
    laws::shown_bindings_are_the_same();
    let written = documents.to_json()?;
    IntMap::from_json(alloc, &written)
}

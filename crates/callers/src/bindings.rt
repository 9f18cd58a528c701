//! Values by key: looked up, set, replaced and removed.
ghost use Rattle.std.specs.Prelude.{[], ◌+◌, ◌-◌, ◌^◌, ◌∷◌, ◌≡◌, ◌≢◌, FitsSigned, IfErr, IfNone, IfOk, IfSome, List, None, OnErr, OnOk, Some, ℤ, false, length, min, option_map, reverse};
ghost use Rattle.std.specs.Int.{w64};
ghost use Rattle.intmap.specs.Bindings.{IsPresent, Updates, value_of};
ghost use Rattle.intmap.specs.Classes.{same_key};
ghost use Rattle.intmap.specs.Unsigned.{value_at};
ghost use Rattle.callers.specs.Bindings.{OthersStay, rooms_on};

use intmap::iter::Keys;
use intmap::{Cause, IntKey, IntMap, Refused};
use std::alloc::{Allocator, Global};

/// Inserts the pair of the key and the value, and returns the value that the key had before. Every
/// other key keeps its value.
///
/// It fails if the insertion of a new key fails, and returns the value. Every key then keeps its
/// value.
pub fn bind<K: IntKey, V: Drop, A: Allocator + Copy>(
    map: &mut IntMap<K, V, A>,
    key: K,
    value: V,
) -> Result<Option<V>, Refused<V>>
    ensures before { IfOk result (λ before. before ≡ value_of K.number_of map.old.walk key) }
    ensures here { OnOk result (value_of K.number_of map.new.walk key ≡ Some value) }
    ensures others { (q : K) → same_key K.number_of key q ≡ false
        → value_of K.number_of map.new.walk q ≡ value_of K.number_of map.old.walk q }
    ensures value_returned { IfErr result (λ refused. refused.value ≡ value) }
    ensures err { OnErr result ((q : K)
        → value_of K.number_of map.new.walk q ≡ value_of K.number_of map.old.walk q) }
{
    map.insert(key, value)
}

// Prices by article number.

/// Raises the price of an article, to at most 2^64 - 1, and returns the new price, or `None` if the
/// article has none. It never fails: the insertion of a present key needs no memory.
pub fn raise<A: Allocator + Copy>(
    prices: &mut IntMap<u64, u64, A>,
    article: u64,
    by: u64,
) -> Option<u64>
    ensures answer { result
        ≡ option_map (λ price. min (price + by) (2 ^ 64 - 1)) (value_at prices.old.walk article) }
    ensures here { value_at prices.new.walk article ≡ result }
    ensures others { OthersStay prices.old.walk prices.new.walk article }
    ensures len { length prices.new.walk ≡ length prices.old.walk }
{
    let price = *prices.get(article)?;
    let raised = price.saturating_add(by);
    match prices.insert(article, raised) {
        Ok(_) => Some(raised),
        Err(_) => unreachable!(),
    }
}

/// A copy of the prices, in which the article has this price. The prices themselves stay.
///
/// It fails if the copy can't be made or the insertion fails.
pub fn with_price<A: Allocator + Copy>(
    prices: &IntMap<u64, u64, A>,
    article: u64,
    price: u64,
) -> Result<IntMap<u64, u64, A>, Cause>
    ensures { IfOk result (λ copy.
        Updates (λ key. key) prices.now.walk copy.walk article (Some price)) }
{
    let mut copy = prices.clone()?;
    copy.insert(article, price)?;
    Ok(copy)
}

// Floors of a house, some of them below the ground floor: keys that may be negative.

/// The number of rooms on a floor, if one is noted.
pub fn rooms<A: Allocator + Copy>(house: &IntMap<i64, u64, A>, floor: i64) -> Option<u64>
    ensures { result ≡ rooms_on house.now.walk floor }
{
    house.get(floor).copied()
}

/// Notes the number of rooms on a floor, and returns the number noted before.
///
/// It fails if the insertion of a new floor fails. Each floor then keeps its number.
pub fn note_rooms<A: Allocator + Copy>(
    house: &mut IntMap<i64, u64, A>,
    floor: i64,
    rooms: u64,
) -> Result<Option<u64>, Cause>
    ensures before { IfOk result (λ before. before ≡ rooms_on house.old.walk floor) }
    ensures here { OnOk result (rooms_on house.new.walk floor ≡ Some rooms) }
    ensures others { (other : ℤ) → FitsSigned w64 other → other ≢ floor
        → rooms_on house.new.walk other ≡ rooms_on house.old.walk other }
    ensures err { OnErr result ((other : ℤ)
        → rooms_on house.new.walk other ≡ rooms_on house.old.walk other) }
{
    Ok(house.insert(floor, rooms)?)
}

/// The numbers noted for the floors -1 and 1, after two rooms were noted for floor -1 and five for
/// floor 1.
///
/// It fails if there is no memory.
pub fn cellar_and_storey(alloc: Global) -> Result<(Option<u64>, Option<u64>), Cause>
    ensures { IfOk result (λ rooms. (rooms.0 ≡ Some 2) × (rooms.1 ≡ Some 5)) }
{
    let mut house: IntMap<i64, u64> = IntMap::new(alloc)?;
    house.insert(-1, 2)?;
    house.insert(1, 5)?;
    Ok((house.get(-1).copied(), house.get(1).copied()))
}

// Whole pairs: a key with its value, looked up, removed, or listed in an array; and a value by
// `map[key]`.

/// A copy of the pair of the key: the key itself, with its value.
pub fn copy_pair<K: IntKey, V: Copy, A: Allocator + Copy>(
    map: &IntMap<K, V, A>,
    key: K,
) -> Option<(K, V)>
    ensures { result ≡ option_map (λ value. (key, value)) (value_of K.number_of map.now.walk key) }
{
    let (key, value) = map.get_key_value(key)?;
    Some((*key, *value))
}

/// Removes the pair of the key, and returns it: the key itself, with its value. Every other key
/// keeps its value.
pub fn take_pair<K: IntKey, V, A: Allocator + Copy>(
    map: &mut IntMap<K, V, A>,
    key: K,
) -> Option<(K, V)>
    ensures pair { result
        ≡ option_map (λ value. (key, value)) (value_of K.number_of map.old.walk key) }
    ensures gone { value_of K.number_of map.new.walk key ≡ None }
    ensures others { (q : K) → same_key K.number_of key q ≡ false
        → value_of K.number_of map.new.walk q ≡ value_of K.number_of map.old.walk q }
{
    map.remove_entry(key)
}

/// The value of a key that the caller knows to be present.
pub fn known_value<K: IntKey, V: Copy, A: Allocator + Copy>(map: &IntMap<K, V, A>, key: K) -> V
    requires { IsPresent K.number_of map.now.walk key }
    ensures { value_of K.number_of map.now.walk key ≡ Some result }
{
    map[key]
}

/// The next key, by a clone: the iterator itself stays as it is.
pub fn next_key<K: IntKey, V, A: Allocator + Copy>(keys: &Keys<'_, K, V, A>) -> Option<K>
    ensures some { IfSome result (λ key. (rest : List K) × (keys.now ≡ key ∷ rest)) }
    ensures none { IfNone result (keys.now ≡ []) }
{
    keys.clone().unwrap().next().copied()
}

/// A map of the array's pairs, in which each key has its last value.
///
/// It fails if the map can't be made or an insertion fails, and then drops everything.
pub fn bind_all<K: IntKey, V: Drop, A: Allocator + Copy, const N: usize>(
    alloc: A,
    pairs: [(K, V); N],
) -> Result<IntMap<K, V, A>, Cause>
    ensures { IfOk result (λ made. (q : K) → value_of K.number_of made.walk q
        ≡ value_of K.number_of (reverse pairs) q) }
{
    IntMap::from_array(alloc, pairs)
}

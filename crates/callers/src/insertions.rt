//! Insertions of many pairs, insertions that never fail, and pairs that wait after a failure.
ghost use Rattle.std.specs.Prelude.{[], ◌++◌, ◌+◌, ◌<◌, ◌^◌, ◌∷◌, ◌≡◌, ◌≤◌, All, IfErr, IfOk, List, None, OnErr, OnOk, Some, ℕ, cond, length, nat_lt, reverse, true, vec_capacity};
ghost use Rattle.std.specs.Option.{option_or};
ghost use Rattle.intmap.specs.Bindings.{HasDistinctKeys, Updates, value_of};
ghost use Rattle.intmap.specs.Growth.{IsNext, MeetsLoad};
ghost use Rattle.intmap.specs.Insertions.{IsInsertion};
ghost use Rattle.intmap.specs.Reach.{class_size};
ghost use Rattle.intmap.specs.Room.{AreInRow, HasRoomFor};
ghost use Rattle.intmap.specs.Unsigned.{value_at};
ghost use Rattle.callers.specs.Bindings.{IsPutUpTo, Moves, pairs_of};

use intmap::{Cause, IntKey, IntMap, RefusedPair, laws};
use std::alloc::{AllocError, Allocator};

/// Sets the price of an article by its id.
///
/// It fails if the insertion of a new id fails. Every article then keeps its price.
pub fn set_price(prices: &mut IntMap<u64, u64>, id: u64, price: u64) -> Result<(), Cause>
    ensures set { OnOk result (Updates (λ k. k) prices.old.walk prices.new.walk id (Some price)) }
    ensures err { OnErr result (prices.new.walk ≡ prices.old.walk) }
{
    prices.insert(id, price)?;
    Ok(())
}

// Settings by number. The last value of a setting counts.

/// Puts further settings over the present ones. Each setting then has its last value among the
/// further ones, or, if they don't name it, the value that it had.
///
/// It fails if an insertion fails, and returns that setting. The settings before it were then put
/// into the table, and those behind it weren't.
pub fn put_over<V: Drop, A: Allocator + Copy>(
    settings: &mut IntMap<u64, V, A>,
    further: Vec<(u64, V), A>,
) -> Result<(), RefusedPair<u64, V>>
    ensures ok { OnOk result ((q : ℕ) → value_at settings.new.walk q
        ≡ option_or (value_at (reverse further.items) q)
        (value_at settings.old.walk q)) }
    ensures err { IfErr result (λ refused. IsPutUpTo (refused.key, refused.value) further.items
        settings.old.walk settings.new.walk) }
{
    settings.extend(further.into_iter())
}

/// A table of settings, each with its last value in the list.
///
/// It fails if the table can't be made or an insertion fails, and then drops everything.
pub fn table_of<V: Drop, A: Allocator + Copy>(
    alloc: A,
    settings: Vec<(u64, V), A>,
) -> Result<IntMap<u64, V, A>, Cause>
    ensures { IfOk result (λ table. (q : ℕ) → value_at table.walk q
        ≡ value_at (reverse settings.items) q) }
{
    IntMap::from_iter(alloc, settings.into_iter())
}

// Insertions that never fail, since there is room for their pairs.

/// Inserts the pairs, each of which has a slot of its own. It never fails, and the capacity stays.
pub fn insert_all<K: IntKey, V: Drop, A: Allocator + Copy>(
    map: &mut IntMap<K, V, A>,
    pairs: Vec<(K, V), A>,
)
    requires { HasRoomFor K.number_of map.old.walk map.old.capacity map.old.factor pairs.items }
    ensures capacity { map.new.capacity ≡ map.old.capacity }
    ensures values { (q : K) → value_of K.number_of map.new.walk q ≡ option_or
        (value_of K.number_of (reverse pairs.items) q) (value_of K.number_of map.old.walk q) }
{
    laws::pairs_with_room_are_inserted::<K, V>();
    match map.extend(pairs.into_iter()) {
        Ok(()) => (),
        Err(_refused) => unreachable!(),
    }
}

/// Inserts new pairs whose keys and the map's own stand in a row no longer than the capacity, as
/// ids that follow one another do. If all of them meet the load, it never fails, and the capacity
/// stays.
pub fn insert_row<K: IntKey, V: Drop, A: Allocator + Copy>(
    map: &mut IntMap<K, V, A>,
    pairs: Vec<(K, V), A>,
)
    requires distinct { HasDistinctKeys K.number_of (map.old.walk ++ pairs.items) }
    requires row { AreInRow K.number_of map.old.capacity (map.old.walk ++ pairs.items) }
    requires count { length (map.old.walk ++ pairs.items) < 2 ^ 64 }
    requires room { MeetsLoad map.old.capacity (length (map.old.walk ++ pairs.items))
        map.old.factor }
    ensures capacity { map.new.capacity ≡ map.old.capacity }
    ensures values { (q : K) → value_of K.number_of map.new.walk q ≡ option_or
        (value_of K.number_of (reverse pairs.items) q) (value_of K.number_of map.old.walk q) }
{
    laws::keys_in_a_row_have_room::<K, V>();
    let _capacity = map.capacity();
    insert_all(map, pairs);
}

/// Inserts a new key below the capacity, where all keys are below it, and one pair more meets the
/// load. It never fails, and the capacity stays.
pub fn insert_small<A: Allocator + Copy>(map: &mut IntMap<u64, u64, A>, key: u64, value: u64)
    requires small_keys { All (λ p. p.0 < map.old.capacity) map.old.walk }
    requires small { key < map.old.capacity }
    requires new { value_at map.old.walk key ≡ None }
    requires fits { length map.old.walk + 1 < 2 ^ 64 }
    requires room { MeetsLoad map.old.capacity (length map.old.walk + 1) map.old.factor }
    ensures capacity { map.new.capacity ≡ map.old.capacity }
    ensures updates { Updates (λ k. k) map.old.walk map.new.walk key (Some value) }
    ensures len { length map.new.walk ≡ length map.old.walk + 1 }
    ensures factor { map.new.factor ≡ map.old.factor }
{
    laws::met_loads_keep_capacity();
    laws::small_new_keys_are_alone::<u64, u64>();
    let _pairs = map.len();
    insert_alone(map, key, value);
}

/// Counters with the numbers from 0 to `n` - 1, all of which are 0.
///
/// It fails only before the first of them is inserted: if the map can't be made, or the room for
/// all.
pub fn counters<A: Allocator + Copy>(alloc: A, n: usize) -> Result<IntMap<u64, u64, A>, Cause>
    ensures { IfOk result (λ map. (q : ℕ)
        → value_at map.walk q ≡ cond (nat_lt q n) (Some 0) None) }
{
    let mut map = IntMap::new(alloc)?;
    map.reserve_pairs(n)?;
    for number in 0..n {
        insert_next(&mut map, number, n);
    }
    Ok(map)
}

/// Inserts the counter that follows the others, where `n` counters meet the load. It never fails.
fn insert_next<A: Allocator + Copy>(map: &mut IntMap<u64, u64, A>, number: usize, n: usize)
    requires below { number < n }
    requires len { length map.old.walk ≡ number }
    requires values { (q : ℕ)
        → value_at map.old.walk q ≡ cond (nat_lt q number) (Some 0) None }
    requires room { MeetsLoad map.old.capacity n map.old.factor }
    requires small { map.old.factor < 1000 }
    ensures len { length map.new.walk ≡ number + 1 }
    ensures values { (q : ℕ)
        → value_at map.new.walk q ≡ cond (nat_lt q (number + 1)) (Some 0) None }
    ensures room { MeetsLoad map.new.capacity n map.new.factor }
    ensures small { map.new.factor < 1000 }
{
    laws::fewer_pairs_meet_loads();
    laws::met_loads_leave_slots();
    laws::present_keys_are_below::<u64, u64>();
    let _capacity = map.capacity();
    insert_small(map, number as u64, 0);
}

/// Inserts the pair of a key that is alone in its slot, at a length that leaves the capacity. It
/// never fails.
fn insert_alone<K: IntKey, V: Drop, A: Allocator + Copy>(
    map: &mut IntMap<K, V, A>,
    key: K,
    value: V,
)
    requires alone { class_size K.number_of map.old.walk map.old.capacity key ≡ 0 }
    requires stays { IsNext map.old.capacity (length map.old.walk + 1) map.old.factor
        map.old.capacity }
    requires count { length map.old.walk + 1 < 2 ^ 64 }
    ensures inserted { IsInsertion K.number_of K.is_valid map.old key value map.new }
    ensures factor { map.new.factor ≡ map.old.factor }
{
    match map.insert(key, value) {
        Ok(_old) => (),
        Err(_refused) => unreachable!(),
    }
}

// Pairs on their way into a map: a pair whose insertion fails waits, with its cause.

/// A pair whose insertion failed, with the cause.
#[derive(Drop)]
pub struct Waiting<V> {
    /// The key.
    pub key: u64,
    /// The value.
    pub value: V,
    /// Why its insertion failed.
    pub cause: Cause,
}

/// A new map with one pair, and whether its insertion succeeded, which it does: the pair is alone
/// in its slot.
///
/// It fails if the map can't be made.
pub fn made_of_one<V: Drop, A: Allocator + Copy>(
    alloc: A,
    key: u64,
    value: V,
) -> Result<(IntMap<u64, V, A>, bool), Cause>
    ensures inserted { IfOk result (λ made. made.1 ≡ true) }
    ensures here { IfOk result (λ made. value_at made.0.walk key ≡ Some value) }
    ensures len { IfOk result (λ made. length made.0.walk ≡ 1) }
{
    let mut map = IntMap::new(alloc)?;
    let is_in = map.insert(key, value).is_ok();
    Ok((map, is_in))
}

/// Moves the pairs into the map, and lets those wait whose insertion fails. Each pair, also one
/// that waited before, is then in the map, at least until another takes its key, or it waits. No
/// pair is lost or doubled.
///
/// It fails if there is no memory to let all of them wait, and then moves nothing.
pub fn move_into<V: Drop, A: Allocator + Copy>(
    map: &mut IntMap<u64, V, A>,
    pairs: &mut Vec<(u64, V), A>,
    waiting: &mut Vec<Waiting<V>, A>,
) -> Result<(), AllocError>
    ensures moved { OnOk result (Moves (pairs_of waiting.old.items ++ pairs.old.items) map.old.walk
        (pairs_of waiting.new.items) map.new.walk) }
    ensures emptied { OnOk result (pairs.new.items ≡ []) }
    ensures pairs_stay { OnErr result (pairs.new.items ≡ pairs.old.items) }
    ensures waiting_stays { OnErr result (waiting.new.items ≡ waiting.old.items) }
    ensures map_stays { OnErr result (map.new ≡ map.old) }
{
    waiting.reserve(pairs.len())?;
    while let Some((key, value)) = pairs.pop() {
        bind(map, key, value, waiting);
    }
    Ok(())
}

/// Inserts the pair, or lets it wait if the insertion fails. There must be room for a waiting pair.
/// The clause `moved` takes this pair off the end of the pairs that are left.
fn bind<V: Drop, A: Allocator + Copy>(
    map: &mut IntMap<u64, V, A>,
    key: u64,
    value: V,
    waiting: &mut Vec<Waiting<V>, A>,
)
    requires room { length waiting.old.items < vec_capacity waiting.old }
    ensures moved { (came before rest : List (ℕ × V))
        → Moves came before (pairs_of waiting.old.items ++ (rest ++ (key, value) ∷ [])) map.old.walk
        → Moves came before (pairs_of waiting.new.items ++ rest) map.new.walk }
    ensures at_most_one_more { length waiting.new.items ≤ length waiting.old.items + 1 }
    ensures capacity { vec_capacity waiting.new ≡ vec_capacity waiting.old }
{
    if let Err(refused) = map.insert(key, value) {
        waiting.push_reserved(Waiting {
            key,
            value: refused.value,
            cause: refused.cause,
        });
    }
}

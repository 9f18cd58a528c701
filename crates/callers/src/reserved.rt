//! Insertions behind a reservation. None of them fails, whatever their keys are.
ghost use Rattle.std.specs.Prelude.{◌+◌, ◌≡◌, All, OnErr, OnOk, Some, length, reverse};
ghost use Rattle.std.specs.Option.{option_or};
ghost use Rattle.intmap.specs.Bindings.{Updates, value_of};
ghost use Rattle.intmap.specs.Room.{HasRoom};

use intmap::{Cause, IntKey, IntMap, laws};
use std::alloc::Allocator;

/// Puts the pairs into the map. Each of their keys then has its last value, and each other key what
/// it had.
///
/// It fails only if the room for the pairs can't be made. The map then stays as it was.
pub fn insert_listed<K: IntKey, V: Drop, A: Allocator + Copy>(
    map: &mut IntMap<K, V, A>,
    pairs: Vec<(K, V), A>,
) -> Result<(), Cause>
    ensures values { OnOk result ((q : K) → value_of K.number_of map.new.walk q ≡ option_or
        (value_of K.number_of (reverse pairs.items) q) (value_of K.number_of map.old.walk q)) }
    ensures err { OnErr result (map.new ≡ map.old) }
{
    map.reserve_insertions(pairs.len())?;
    insert_reserved(map, pairs);
    Ok(())
}

/// Puts the pairs into a map that has room for them. It never fails.
fn insert_reserved<K: IntKey, V: Drop, A: Allocator + Copy>(
    map: &mut IntMap<K, V, A>,
    pairs: Vec<(K, V), A>,
)
    requires { HasRoom K.number_of map.old (length pairs.items) }
    ensures { (q : K) → value_of K.number_of map.new.walk q ≡ option_or
        (value_of K.number_of (reverse pairs.items) q) (value_of K.number_of map.old.walk q) }
{
    match map.extend(pairs.into_iter()) {
        Ok(()) => (),
        Err(_refused) => unreachable!(),
    }
}

/// Gives each of the keys the value, one after another.
///
/// It fails only if the room for the keys can't be made. The map then stays as it was.
pub fn set_each<A: Allocator + Copy>(
    map: &mut IntMap<u64, u64, A>,
    keys: &[u64],
    value: u64,
) -> Result<(), Cause>
    ensures set { OnOk result
        (All (λ key. value_of (λ k. k) map.new.walk key ≡ Some value) keys.now) }
    ensures err { OnErr result (map.new ≡ map.old) }
{
    map.reserve_insertions(keys.len())?;
    for at in 0..keys.len() {
        set_next(map, keys[at], value, keys.len() - at - 1);
    }
    Ok(())
}

/// Gives a key the value, in a map that has room for it and `left` more. It never fails, and leaves
/// room for these.
fn set_next<A: Allocator + Copy>(map: &mut IntMap<u64, u64, A>, key: u64, value: u64, left: usize)
    requires { HasRoom (λ k. k) map.old (left + 1) }
    ensures updates { Updates (λ k. k) map.old.walk map.new.walk key (Some value) }
    ensures room { HasRoom (λ k. k) map.new left }
{
    laws::insertions_leave_room::<u64, u64>();
    match map.insert(key, value) {
        Ok(_old) => (),
        Err(_refused) => unreachable!(),
    }
}

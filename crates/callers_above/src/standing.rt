//! Maps beside plain lists of pairs that stand for them: what a call says of each such list, and
//! what has to be done to the list for it to stand for the map that the call leaves.
ghost use Rattle.std.specs.Prelude.{◌≡◌, ◌↔◌, ◌+◌, ◌<◌, ℕ, IfOk, IsErrOf, IsTrue, List, OnErr, OnOk, false, is_some, length, option_copied};
ghost use Rattle.intmap.specs.Bindings.{put_pair, strike_keys, value_of, write_value};
ghost use Rattle.intmap.specs.Classes.{slot_number};
ghost use Rattle.intmap.specs.Figures.{collisions_of, load_of, rate_of};
ghost use Rattle.intmap.specs.Growth.{IsNext};
ghost use Rattle.intmap.specs.Reach.{class_size, reach};
ghost use Rattle.intmap_run.specs.Laws.{StandForOne};
ghost use Rattle.intmap_run.specs.Removals.{Takes};

use intmap::steps::Steps;
use intmap::{Cause, IntKey, IntMap};
use intmap_run::laws;
use intmap_set::IntSet;
use std::alloc::Allocator;

// What is read of the map is what each list has.

/// The length of the map, how many of its slots hold a pair, and its load rate.
pub fn figures<K: IntKey, V, A: Allocator + Copy>(map: &IntMap<K, V, A>) -> (usize, u64, u128)
    ensures len { (L : List (K × V)) → StandForOne K.number_of map.now.capacity L map.now.walk
        → result.0 ≡ length L }
    ensures load { (L : List (K × V)) → StandForOne K.number_of map.now.capacity L map.now.walk
        → result.1 ≡ load_of K.number_of L map.now.capacity }
    ensures rate { (L : List (K × V)) → StandForOne K.number_of map.now.capacity L map.now.walk
        → result.2 ≡ rate_of L map.now.capacity }
{
    laws::lengths_are_the_same::<K, V>();
    laws::loads_are_the_same::<K, V>();
    laws::rates_are_the_same::<K, V>();
    (map.len(), map.load(), map.load_rate())
}

/// How many slots have each size above 1.
///
/// It fails if there is no memory.
pub fn sizes<K: IntKey, V: Drop, A: Allocator + Copy>(
    map: &IntMap<K, V, A>,
) -> Result<IntMap<u64, u64, A>, Cause>
    ensures { IfOk result (λ made. (L : List (K × V))
        → StandForOne K.number_of map.now.capacity L map.now.walk
        → (size : ℕ) → value_of (λ n. n) made.walk size
        ≡ value_of (λ n. n) (collisions_of K.number_of L map.now.capacity) size) }
{
    laws::collisions_are_the_same::<K, V>();
    map.collisions()
}

/// The value of the key, with its comparisons counted in `steps`.
pub fn find<'a, K: IntKey, V, A: Allocator + Copy>(
    map: &'a IntMap<K, V, A>,
    key: K,
    steps: &mut Steps,
) -> Option<&'a V>
    ensures value { (L : List (K × V)) → StandForOne K.number_of map.now.capacity L map.now.walk
        → option_copied result ≡ value_of K.number_of L key }
    ensures counted { (L : List (K × V)) → StandForOne K.number_of map.now.capacity L map.now.walk
        → steps.new ≡ steps.old + reach K.number_of L map.now.capacity key }
{
    laws::values_are_the_same::<K, V>();
    laws::reaches_are_the_same::<K, V>();
    map.get_counted(key, steps)
}

/// Whether two keys have the same slot, whatever the map holds.
pub fn share_slot<K: IntKey, V, A: Allocator + Copy>(map: &IntMap<K, V, A>, a: K, b: K) -> bool
    ensures { IsTrue result ↔ (slot_number K.number_of a map.now.capacity
        ≡ slot_number K.number_of b map.now.capacity) }
{
    laws::keys_share_slots_by_residue::<K>();
    let slots = map.capacity() as u64;
    a.number() % slots == b.number() % slots
}

// What is done to the map is done to each list.

/// Removes the key, and returns its value. In a list, the last pair behind the removed one whose
/// key has its slot fills the hole.
pub fn remove<K: IntKey, V, A: Allocator + Copy>(map: &mut IntMap<K, V, A>, key: K) -> Option<V>
    ensures value { result ≡ value_of K.number_of map.old.walk key }
    ensures list { (L M : List (K × V)) → StandForOne K.number_of map.old.capacity L map.old.walk
        → Takes K.number_of L map.old.capacity key M
        → StandForOne K.number_of map.new.capacity M map.new.walk }
{
    laws::removals_fill_the_hole::<K, V>();
    laws::removal_keeps_standing::<K, V>();
    laws::walks_grow_as_lists::<K, V>();
    map.remove(key)
}

/// Inserts the pair. In a list, it is the last one then, whether the map grew or not.
///
/// It fails if the insertion fails: for want of memory, at a length that leaves the capacity, only
/// if each list has a key in the slot. All pairs then stay.
pub fn insert<K: IntKey, V: Drop, A: Allocator + Copy>(
    map: &mut IntMap<K, V, A>,
    key: K,
    value: V,
) -> Result<(), Cause>
    ensures list { OnOk result ((L : List (K × V))
        → StandForOne K.number_of map.old.capacity L map.old.walk
        → StandForOne K.number_of map.new.capacity
        (put_pair K.number_of L map.old.capacity key value) map.new.walk) }
    ensures err { OnErr result (map.new.walk ≡ map.old.walk) }
    ensures memory { IsErrOf result Cause.Memory
        → IsNext map.old.capacity (length map.old.walk + 1) map.old.factor map.old.capacity
        → (L : List (K × V)) → StandForOne K.number_of map.old.capacity L map.old.walk
        → 0 < class_size K.number_of L map.old.capacity key }
{
    laws::insertion_keeps_standing::<K, V>();
    laws::growth_keeps_standing::<K, V>();
    laws::walks_grow_as_lists::<K, V>();
    laws::class_sizes_are_the_same::<K, V>();
    match map.insert(key, value) {
        Ok(_old) => Ok(()),
        Err(refused) => Err(refused.cause),
    }
}

/// Sets the value of the key in its place, and returns whether the key is present. In a list, its
/// first pair of the key has the value then.
pub fn write<K: IntKey, V: Drop, A: Allocator + Copy>(
    map: &mut IntMap<K, V, A>,
    key: K,
    value: V,
) -> bool
    ensures present { result ≡ is_some (value_of K.number_of map.old.walk key) }
    ensures absent { result ≡ false → map.new.walk ≡ map.old.walk }
    ensures list { IsTrue result → (L : List (K × V))
        → StandForOne K.number_of map.old.capacity L map.old.walk
        → StandForOne K.number_of map.new.capacity (write_value K.number_of L key value)
        map.new.walk }
{
    laws::writing_keeps_standing::<K, V>();
    if let Some(kept) = map.get_mut(key) {
        *kept = value;
        return true;
    }
    false
}

/// Removes the keys that are members of the set. In a list, the other pairs keep their order.
pub fn forget_members<K: IntKey, V: Drop, A: Allocator + Copy>(
    map: &mut IntMap<K, V, A>,
    gone: &IntSet<K, A>,
)
    ensures list { (L : List (K × V)) → StandForOne K.number_of map.old.capacity L map.old.walk
        → StandForOne K.number_of map.new.capacity (strike_keys K.number_of L gone.now.walk)
        map.new.walk }
{
    laws::striking_keeps_standing::<K, V>();
    map.retain(|key, _| !gone.contains(key));
}

//! Laws for callers: what follows about a map from the contracts of its calls. Each is the contract
//! of a function that does nothing.
//!
//! A call such as `laws::small_keys_are_found_at_once::<u64, V>();` adds its law to the proof of
//! the function that contains the call.
ghost use Rattle.std.specs.Prelude.{◌≡◌, ◌+◌, ◌^◌, ◌<◌, ◌≤◌, ◌↔◌, ℕ, List, ◌∷◌, ◌++◌, Option, All, IsTrue, Contains, cond, is_none, is_some, length, map, option_map, reverse, sum, unwrap_or, Some, None};
ghost use Rattle.std.specs.Map.{values_of};
ghost use Rattle.intmap_table.specs.Classes.{IsCapacity};
ghost use Rattle.intmap_table.specs.Bindings.{value_of, IsPresent, take_key, put_pair, write_value, HasDistinctKeys, Updates, BindSame};
ghost use Rattle.intmap_table.specs.Cloning.{BindsClones};
ghost use Rattle.intmap_table.specs.Walk.{walk_of};
ghost use Rattle.intmap_table.specs.Reach.{reach, class_size};
ghost use Rattle.intmap_table.specs.Figures.{load_of};
ghost use Rattle.intmap.specs.Cloning.{IsClone};
ghost use Rattle.intmap.specs.Growth.{IsWanted, IsNext, MeetsLoad, NeedsTooMuch};
ghost use Rattle.intmap.specs.Entries.{entry_map, entry_key, map_with_value};
ghost use Rattle.intmap.specs.Insertions.{IsInsertion};
ghost use Rattle.intmap.specs.Map.{MapState, IsCapacityAfter, NeedsNoMemory, IsMap, after_insert, after_remove};
ghost use Rattle.intmap.specs.Equality.{maps_equal};
ghost use Rattle.intmap.specs.PlainLists.{PlainList, RefusalIsDue, list_of};
ghost use Rattle.intmap.specs.Extending.{IsExtended};
ghost use Rattle.intmap.specs.Room.{AreInRow, HasRoom, HasRoomFor};
ghost use Rattle.intmap.specs.Json.{Shows, BindSameTrees};
ghost use Rattle.intmap.specs.declared.entry.Entry.{Entry};
ghost use Rattle.intmap.specs.declared.refusal.Cause.{Cause};
ghost use Rattle.serde_json.specs.Data.{Data};
ghost use Rattle.serde_json.specs.declared.value.Value.{Value};

use intmap_table::IntKey;
use std::alloc::Allocator;

/// In the walk of a list, each key has the value that it has in the list.
pub fn walks_bind_as_lists<K: IntKey, V>()
    ensures { (L : List (K × V)) (C : ℕ) (q : K) → IsCapacity C
        → value_of K.number_of (walk_of K.number_of L C) q ≡ value_of K.number_of L q }
{}

/// The walk of a list has as many pairs as the list.
pub fn walks_are_as_long_as_lists<K: IntKey, V>()
    ensures { (L : List (K × V)) (C : ℕ) → IsCapacity C
        → length (walk_of K.number_of L C) ≡ length L }
{}

/// Once a key is removed from a list with distinct keys, it is absent, and every other key is as
/// before.
pub fn removal_updates<K: IntKey, V>()
    ensures { (L : List (K × V)) (C : ℕ) (k : K) → HasDistinctKeys K.number_of L
        → Updates K.number_of L (take_key K.number_of L C k) k None }
{}

/// Once a pair is inserted into a list with distinct keys, its key has its value, and every other
/// key is as before.
pub fn insertion_updates<K: IntKey, V>()
    ensures { (L : List (K × V)) (C : ℕ) (k : K) (v : V) → HasDistinctKeys K.number_of L
        → Updates K.number_of L (put_pair K.number_of L C k v) k (Some v) }
{}

/// Once a value is written at a present key, the key has this value, and every other key is as
/// before.
pub fn writing_updates<K: IntKey, V>()
    ensures { (L : List (K × V)) (k : K) (v : V) → IsPresent K.number_of L k
        → Updates K.number_of L (write_value K.number_of L k v) k (Some v) }
{}

/// Once each value of a list is replaced by what a function makes of it, each key has what the
/// function makes of its value, and distinct keys stay distinct.
pub fn mapped_walks_bind_mapped_values<K: IntKey, V, W>()
    ensures values { (f : V → W) (L : List (K × V)) (q : K)
        → value_of K.number_of (map (λ pair. (pair.0, f pair.1)) L) q
        ≡ option_map f (value_of K.number_of L q) }
    ensures distinct { (f : V → W) (L : List (K × V)) → HasDistinctKeys K.number_of L
        → HasDistinctKeys K.number_of (map (λ pair. (pair.0, f pair.1)) L) }
{}

/// In the reverse of a list with distinct keys, each key has the value that it has in the list.
pub fn reversed_lists_bind_the_same<K: IntKey, V>()
    ensures { (L : List (K × V)) (q : K) → HasDistinctKeys K.number_of L
        → value_of K.number_of (reverse L) q ≡ value_of K.number_of L q }
{}

/// Removing a present key makes a list one pair shorter. Removing an absent key leaves its length.
pub fn removal_shortens<K: IntKey, V>()
    ensures { (L : List (K × V)) (C : ℕ) (k : K)
        → length (take_key K.number_of L C k) + cond (is_some (value_of K.number_of L k)) 1 0
        ≡ length L }
{}

/// Inserting a pair makes a list one pair longer if its key is new, and otherwise leaves its
/// length.
pub fn insertion_lengthens<K: IntKey, V>()
    ensures { (L : List (K × V)) (C : ℕ) (k : K) (v : V)
        → length (put_pair K.number_of L C k v)
        ≡ length L + cond (is_some (value_of K.number_of L k)) 0 1 }
{}

/// A pair is in the walk of a map if and only if its value is that of its key.
pub fn pairs_are_values<K: IntKey, V>()
    ensures value { (m : MapState K V) (k : K) (v : V) → IsMap K.number_of K.is_valid m
        → Contains m.walk (k, v) → value_of K.number_of m.walk k ≡ Some v }
    ensures pair { (m : MapState K V) (k : K) (v : V) → IsMap K.number_of K.is_valid m
        → K.is_valid k → value_of K.number_of m.walk k ≡ Some v → Contains m.walk (k, v) }
{}

/// The values in the walk of a list have the same sum as those in the list.
pub fn walks_sum_as_lists<K: IntKey>()
    ensures { (L : List (K × ℕ)) (C : ℕ) → IsCapacity C
        → sum (values_of (walk_of K.number_of L C)) ≡ sum (values_of L) }
{}

/// Removing a present key lowers the sum of all values by its value. Removing an absent key leaves
/// the sum.
pub fn removal_lowers_sum<K: IntKey>()
    ensures { (L : List (K × ℕ)) (C : ℕ) (k : K)
        → sum (values_of (take_key K.number_of L C k)) + unwrap_or (value_of K.number_of L k) 0
        ≡ sum (values_of L) }
{}

/// Inserting a pair raises the sum of all values by the new value, and lowers it by the value that
/// the key had, if it was present.
pub fn insertion_raises_sum<K: IntKey>()
    ensures { (L : List (K × ℕ)) (C : ℕ) (k : K) (v : ℕ)
        → sum (values_of (put_pair K.number_of L C k v)) + unwrap_or (value_of K.number_of L k) 0
        ≡ sum (values_of L) + v }
{}

/// Writing a value at a present key raises the sum of all values by the new value, and lowers it by
/// the old one.
pub fn writing_changes_sum<K: IntKey>()
    ensures { (L : List (K × ℕ)) (k : K) (a v : ℕ) → HasDistinctKeys K.number_of L
        → value_of K.number_of L k ≡ Some a
        → sum (values_of (write_value K.number_of L k v)) + a ≡ sum (values_of L) + v }
{}

/// An insertion raises the sum of all values by the new value, and lowers it by the value that the
/// key had, if it was present. `inserted` of `insert` is such an insertion.
pub fn insertions_change_sum<K: IntKey>()
    ensures { (m n : MapState K ℕ) (k : K) (v : ℕ) → IsMap K.number_of K.is_valid m
        → IsInsertion K.number_of K.is_valid m k v n
        → sum (values_of n.walk) + unwrap_or (value_of K.number_of m.walk k) 0
        ≡ sum (values_of m.walk) + v }
{}

/// The insertion of a new key raises the sum of all values by its value.
pub fn new_keys_raise_sum<K: IntKey>()
    ensures { (m n : MapState K ℕ) (k : K) (v : ℕ) → IsMap K.number_of K.is_valid m
        → value_of K.number_of m.walk k ≡ None
        → IsInsertion K.number_of K.is_valid m k v n
        → sum (values_of n.walk) ≡ sum (values_of m.walk) + v }
{}

/// An insertion that leaves the value of a present key raises the sum of all values by its value if
/// the key is new, and otherwise leaves the sum. `inserted` of `insert_checked` is such an
/// insertion.
pub fn checked_insertions_change_sum<K: IntKey>()
    ensures { (m n : MapState K ℕ) (k : K) (v : ℕ) → IsMap K.number_of K.is_valid m
        → IsInsertion K.number_of K.is_valid m k (unwrap_or (value_of K.number_of m.walk k) v) n
        → sum (values_of n.walk)
        ≡ sum (values_of m.walk) + cond (is_none (value_of K.number_of m.walk k)) v 0 }
{}

/// The value that is written last through the reference of an entry changes the sum of all values
/// as its insertion does.
pub fn entries_change_sum<K: IntKey, A: Allocator + Copy>()
    ensures { (entry : Entry K ℕ A K.IntKey.own K.PartialEq) (v : ℕ)
        → IsMap K.number_of K.is_valid (entry_map entry)
        → IsInsertion K.number_of K.is_valid (entry_map entry) (entry_key entry) v
        (map_with_value entry v)
        → sum (values_of (map_with_value entry v).walk)
        + unwrap_or (value_of K.number_of (entry_map entry).walk (entry_key entry)) 0
        ≡ sum (values_of (entry_map entry).walk) + v }
{}

/// Once a key has another value, or none, the sum of all values is higher by the new value and
/// lower by the old one. So it is after each call whose clause `updates` has the word `Updates`, as
/// that of `remove` has.
pub fn updates_change_sum<K: IntKey>()
    ensures { (L M : List (K × ℕ)) (k : K) (w : Option ℕ) → HasDistinctKeys K.number_of L
        → HasDistinctKeys K.number_of M → Updates K.number_of L M k w
        → sum (values_of M) + unwrap_or (value_of K.number_of L k) 0
        ≡ sum (values_of L) + unwrap_or w 0 }
{}

/// The value of a key is at most the sum of all values.
pub fn values_are_within_sum<K: IntKey>()
    ensures { (L : List (K × ℕ)) (k : K)
        → unwrap_or (value_of K.number_of L k) 0 ≤ sum (values_of L) }
{}

/// No insertion lowers the capacity.
pub fn insertions_keep_capacity<K: IntKey, V>()
    ensures { (L : List (K × V)) (C F : ℕ) (k : K) (D : ℕ)
        → IsCapacityAfter K.number_of L C F k D → C ≤ D }
{}

/// Setting a load factor never lowers the capacity.
pub fn load_factors_keep_capacity()
    ensures { (C n F D : ℕ) → IsWanted C n F D → C ≤ D }
{}

/// A look-up compares at most the keys that agree with the sought one modulo the capacity.
pub fn reach_is_within_class<K: IntKey, V>()
    ensures { (L : List (K × V)) (C : ℕ) (k : K)
        → reach K.number_of L C k ≤ class_size K.number_of L C k }
{}

/// If a new key makes a length that meets the load, the capacity stays. If the capacity stays, no
/// more than 2^63 slots are needed.
pub fn met_loads_keep_capacity()
    ensures stays { (C n F : ℕ) → IsCapacity C → MeetsLoad C n F → IsNext C n F C }
    ensures same { (C n F D : ℕ) → IsCapacity C → MeetsLoad C n F → IsNext C n F D → D ≡ C }
    ensures in_range { (C n F : ℕ) → IsCapacity C → IsNext C n F C
        → NeedsTooMuch (IsNext C n F) → ⊥ }
{}

/// The insertion of a pair never fails if its slot holds no pair, the new length is below 2^64, and
/// the capacity stays at that length.
pub fn pairs_that_need_no_memory_are_never_refused<K: IntKey, V>()
    ensures { (s : PlainList K V) (k : K) (cause : Cause) → IsCapacity s.capacity
        → length s.pairs + 1 < 2 ^ 64
        → IsNext s.capacity (length s.pairs + 1) s.factor s.capacity
        → class_size K.number_of s.pairs s.capacity k ≡ 0
        → RefusalIsDue K.number_of s k cause → ⊥ }
{}

/// If `n` pairs meet the load of a map, the insertion of a key that shares its slot with none needs
/// no memory at each length below `n`, so it never fails.
pub fn met_loads_leave_room<K: IntKey, V>()
    ensures { (L : List (K × V)) (C F n : ℕ) (k : K) → IsCapacity C → MeetsLoad C n F
        → n < 2 ^ 64 → length L < n → class_size K.number_of L C k ≡ 0
        → NeedsNoMemory K.number_of L C F k }
{}

/// Where a number of pairs meets the load, so does each smaller one.
pub fn fewer_pairs_meet_loads()
    ensures { (C m n F : ℕ) → IsCapacity C → MeetsLoad C n F → m ≤ n → MeetsLoad C m F }
{}

/// With a load factor below 1, there are more slots than pairs where the pairs meet the load.
pub fn met_loads_leave_slots()
    ensures { (C n F : ℕ) → IsCapacity C → F < 1000 → MeetsLoad C n F → n < C }
{}

/// If all keys have numbers below the capacity, an absent key with such a number shares its slot
/// with none.
pub fn small_new_keys_are_alone<K: IntKey, V>()
    ensures { (L : List (K × V)) (C : ℕ) (k : K) → All (λ p. K.number_of p.0 < C) L
        → K.number_of k < C → value_of K.number_of L k ≡ None
        → class_size K.number_of L C k ≡ 0 }
{}

/// If a map has room for pairs, insertions of them in turn never fail, and leave the capacity. Once
/// some of them are inserted, from the first on, there is room for the others.
pub fn pairs_with_room_are_inserted<K: IntKey, V>()
    ensures never_refused { (m n : MapState K V) (ps qs : List (K × V)) (p : K × V) (cause : Cause)
        → IsCapacity m.capacity
        → HasRoomFor K.number_of m.walk m.capacity m.factor (ps ++ p ∷ qs)
        → IsExtended K.number_of K.is_valid m ps n
        → RefusalIsDue K.number_of (list_of n) p.0 cause → ⊥ }
    ensures capacity { (m n : MapState K V) (ps qs : List (K × V)) → IsCapacity m.capacity
        → HasRoomFor K.number_of m.walk m.capacity m.factor (ps ++ qs)
        → IsExtended K.number_of K.is_valid m ps n → n.capacity ≡ m.capacity }
    ensures room { (m n : MapState K V) (ps qs : List (K × V)) → IsCapacity m.capacity
        → HasRoomFor K.number_of m.walk m.capacity m.factor (ps ++ qs)
        → IsExtended K.number_of K.is_valid m ps n
        → HasRoomFor K.number_of n.walk n.capacity n.factor qs }
{}

/// The insertion of the first of the pairs for which a map has room needs no memory.
pub fn pairs_with_room_need_no_memory<K: IntKey, V>()
    ensures { (L : List (K × V)) (C F : ℕ) (p : K × V) (ps : List (K × V)) → IsCapacity C
        → HasRoomFor K.number_of L C F (p ∷ ps) → NeedsNoMemory K.number_of L C F p.0 }
{}

/// A map has room for new pairs if their keys and its own have numbers in a row no longer than the
/// capacity, such as ids that follow one another, and if all pairs together meet the load.
pub fn keys_in_a_row_have_room<K: IntKey, V>()
    ensures { (m : MapState K V) (ps : List (K × V)) → IsMap K.number_of K.is_valid m
        → HasDistinctKeys K.number_of (m.walk ++ ps)
        → AreInRow K.number_of m.capacity (m.walk ++ ps)
        → length (m.walk ++ ps) < 2 ^ 64 → MeetsLoad m.capacity (length (m.walk ++ ps)) m.factor
        → HasRoomFor K.number_of m.walk m.capacity m.factor ps }
{}

/// Distinct keys with numbers below the capacity each have a slot of their own.
pub fn small_distinct_keys_share_no_slot<K: IntKey, V>()
    ensures { (L : List (K × V)) (C : ℕ) (ps : List (K × V))
        → HasDistinctKeys K.number_of (L ++ ps) → All (λ p. K.number_of p.0 < C) (L ++ ps)
        → All (λ p. class_size K.number_of (L ++ ps) C p.0 ≡ 1) ps }
{}

/// An insertion into a map that has room for `n + 1` pairs of any keys leaves room for `n`. Room for
/// some pairs is room for fewer. A removal leaves the room.
pub fn insertions_leave_room<K: IntKey, V>()
    ensures inserted { (m l : MapState K V) (k : K) (v : V) (n : ℕ)
        → IsMap K.number_of K.is_valid m → HasRoom K.number_of m (n + 1)
        → IsInsertion K.number_of K.is_valid m k v l
        → l ≡ after_insert K.number_of m k v l.capacity → HasRoom K.number_of l n }
    ensures fewer { (m : MapState K V) (n fewer : ℕ) → IsMap K.number_of K.is_valid m
        → HasRoom K.number_of m n → fewer ≤ n → HasRoom K.number_of m fewer }
    ensures removed { (m : MapState K V) (k : K) (n : ℕ) → IsMap K.number_of K.is_valid m
        → HasRoom K.number_of m n → HasRoom K.number_of (after_remove K.number_of m k) n }
{}

/// A removed pair goes in again if no other shares its slot, whatever the length: a map that became
/// shorter doesn't grow at a length that it had.
pub fn put_backs_are_never_refused<K: IntKey, V>()
    ensures shorter { (m n : MapState K V) (k : K) → IsMap K.number_of K.is_valid m
        → length n.walk < length m.walk → n.capacity ≡ m.capacity → n.factor ≡ m.factor
        → class_size K.number_of n.walk n.capacity k ≡ 0
        → NeedsNoMemory K.number_of n.walk n.capacity n.factor k }
    ensures removed { (m n : MapState K V) (k : K) (v : V) → IsMap K.number_of K.is_valid m
        → n ≡ after_remove K.number_of m k → value_of K.number_of m.walk k ≡ Some v
        → class_size K.number_of m.walk m.capacity k ≡ 1
        → NeedsNoMemory K.number_of n.walk n.capacity n.factor k }
{}

/// If every key with a number of at least `n` is absent, the numbers of all keys are below `n`.
pub fn present_keys_are_below<K: IntKey, V>()
    ensures { (L : List (K × V)) (n : ℕ)
        → ((q : K) → n ≤ K.number_of q → value_of K.number_of L q ≡ None)
        → All (λ p. K.number_of p.0 < n) L }
{}

/// If distinct keys all have numbers below the capacity, at most one of them agrees with any key.
pub fn small_keys_are_alone<K: IntKey, V>()
    ensures { (L : List (K × V)) (C : ℕ) (k : K) → HasDistinctKeys K.number_of L
        → All (λ p. K.number_of p.0 < C) L → class_size K.number_of L C k ≤ 1 }
{}

/// If distinct keys all have numbers below the capacity, a look-up compares at most one of them.
pub fn small_keys_are_found_at_once<K: IntKey, V>()
    ensures { (L : List (K × V)) (C : ℕ) (k : K) → HasDistinctKeys K.number_of L
        → All (λ p. K.number_of p.0 < C) L → reach K.number_of L C k ≤ 1 }
{}

/// If distinct keys all have numbers below the capacity, each has a slot of its own.
pub fn small_keys_fill_slots<K: IntKey, V>()
    ensures { (L : List (K × V)) (C : ℕ) → HasDistinctKeys K.number_of L
        → All (λ p. K.number_of p.0 < C) L → load_of K.number_of L C ≡ length L }
{}

/// A clone of a map has the same keys, each with a clone of its value. What `Clone` says of a map is
/// the word `IsClone`.
pub fn clones_bind_clones<K: IntKey, V: Clone>()
    ensures { (m n : MapState K V) → IsClone V.is_clone m n
        → BindsClones K.number_of V.is_clone m.walk n.walk }
{}

/// Two maps are equal if and only if they have the same keys, each with equal values.
pub fn equal_maps_bind_the_same<K: IntKey, V: PartialEq>()
    ensures { (m n : MapState K V) → IsTrue (maps_equal K.number_of V.eq m n)
        ↔ BindSame K.number_of V.eq m.walk n.walk }
{}

/// Equal maps have the same number of pairs. The clause `valid` of a map's calls says that its keys
/// are distinct.
pub fn equal_maps_are_as_long<K: IntKey, V: PartialEq>()
    ensures { (m n : MapState K V) → HasDistinctKeys K.number_of m.walk
        → HasDistinctKeys K.number_of n.walk
        → IsTrue (maps_equal K.number_of V.eq m n) → length m.walk ≡ length n.walk }
{}

/// If one JSON value shows two lists of pairs, they have the same numbers, each with the same tree.
pub fn shown_bindings_are_the_same()
    ensures { (tree : Data) (L M : List (ℕ × Value)) → Shows tree L → Shows tree M
        → BindSameTrees L M }
{}

//! The commands of a run.

use std::alloc::{Allocator, Global};

/// One call on a map. Unless its text says otherwise, it never fails and leaves the map as it is.
#[derive(Drop)]
pub enum Command<K, V, A: Allocator = Global> {
    /// `insert`: sets the value of the key. The answer is `Old` with the value before.
    ///
    /// It fails only for a new key, and returns the value. It fails with `TooLarge` if and only if
    /// the map has 2^64 - 1 pairs or growth needs more than 2^63 slots. It never fails with
    /// `Memory` if the capacity stays and no present key has the same slot.
    Insert(K, V),
    /// `insert_checked`: inserts the pair if the key is absent. The answer is `Flag`: whether the
    /// pair was inserted. If the key is present, the value is dropped.
    ///
    /// It fails as `Insert` does, and returns the value.
    InsertChecked(K, V),
    /// `get`: the answer is `Seen` with the value of the key.
    Get(K),
    /// `get_mut`: replaces the value of the key in its place. The answer is `Old` with the value
    /// before. If the key is absent, it is `Back` with the command's own value.
    GetMut(K, V),
    /// `contains_key`: the answer is `Flag`: whether the key is present.
    ContainsKey(K),
    /// `remove`: removes the pair of the key. The answer is `Old` with its value.
    Remove(K),
    /// `clear`: drops all pairs. The answer is `Done`. Capacity and load factor stay.
    Clear,
    /// `retain`: drops the pairs that the judge doesn't keep. The answer is `Done`. The others keep
    /// their order, and capacity and load factor stay.
    Retain,
    /// `reserve`: makes the capacity at least the least power of two that is no less than the
    /// length plus this number. The answer is `Done`.
    ///
    /// It fails with `TooLarge` if and only if that sum is above 2^63, and with `Memory` only if it
    /// is above the capacity.
    Reserve(usize),
    /// `set_load_factor`: sets the load factor, in thousandths. At once it makes the capacity the
    /// least of itself and its doublings that meets the load factor. The answer is `Done`.
    ///
    /// It fails with `TooLarge` if and only if no capacity up to 2^63 meets it, and with `Memory`
    /// only if the present capacity doesn't.
    SetLoadFactor(usize),
    /// `get_load_factor`: the answer is `Number` with the load factor, in thousandths.
    GetLoadFactor,
    /// `entry`, then `insert` on it: replaces the value of the key in its place. The answer is
    /// `Old` with the value before. If the key is absent, it inserts the pair, and the answer is
    /// `Fresh`.
    ///
    /// It fails as `Insert` does, only for a new key, and returns the value.
    EntryInsert(K, V),
    /// `entry`, then `remove` on it if it is occupied: removes the pair of the key. The answer is
    /// `Old` with its value.
    EntryRemove(K),
    /// `extend`: inserts the pairs in turn, each as `Insert` does. The answer is `Done`.
    ///
    /// It stops at the first pair that fails, as `Insert` would. The answer is then `Stopped` with
    /// that pair. The pairs before it stay in the map.
    Extend(Vec<(K, V), A>),
    /// `drain`: removes this number of pairs from the front of the walk, or all if there are fewer.
    /// The answer is `Pairs` with them, in the order of the walk. The others keep their order, and
    /// capacity and load factor stay.
    ///
    /// It fails with `Memory` if there is no memory for the list, before a pair is removed.
    Drain(usize),
    /// `len`: the answer is `Number` with the number of pairs.
    Len,
    /// `is_empty`: the answer is `Flag`: whether there is no pair.
    IsEmpty,
    /// `capacity`: the answer is `Number` with the number of slots.
    Capacity,
    /// `load`: the answer is `Number` with the number of slots that hold a pair.
    Load,
    /// `load_rate`: the answer is `Number` with the number of pairs for each slot, in thousandths,
    /// rounded down.
    LoadRate,
    /// `assert_count`: counts the pairs that the slots hold. The answer is `Flag`: whether `len` is
    /// their number, which is always true.
    AssertCount,
    /// `iter`: the answer is `Walk` with each key and what the judge sees of its value, slot by
    /// slot.
    ///
    /// It fails with `Memory` if there is no memory for the list, before a value is looked at.
    Walk,
    /// `keys`: the answer is `Keys` with all keys, slot by slot.
    ///
    /// It fails with `Memory` if there is no memory for the list.
    Keys,
    /// `values`: the answer is `Values` with what the judge sees of each value, slot by slot.
    ///
    /// It fails with `Memory` if there is no memory for the list, before a value is looked at.
    Values,
    /// `collisions`: the answer is `Sizes` with the walk of the map that the call makes.
    ///
    /// It fails with `Memory` if there is no memory for that map or for the list.
    Collisions,
}

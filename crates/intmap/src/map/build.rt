//! New maps, and insertion of many pairs.
ghost use Rattle.std.specs.Prelude.{◌≡◌, ◌↔◌, ◌+◌, ◌^◌, ◌<◌, ◌⊎◌, max, length, IfOk, IfErr, Err, ℕ, ◌≤◌, OnOk, IsOk, MatchResult, reverse};
ghost use Rattle.std.specs.Option.{option_or};
ghost use Rattle.intmap_table.specs.Bindings.{value_of};
ghost use Rattle.intmap_table.specs.Classes.{IsCapacity};
ghost use Rattle.intmap.specs.Growing.{MeetsFactor};
ghost use Rattle.intmap.specs.Growth.{IsLeastPower, IsWanted, NeedsTooMuch};
ghost use Rattle.intmap.specs.Map.{IsMap, empty_map, first_capacity, first_factor, least_capacity};
ghost use Rattle.intmap.specs.Room.{HasRoom, HasRoomInRow};
ghost use Rattle.std.specs.Iterator.{IsFinite, size};
ghost use Rattle.std.specs.Iterator.Runs.{WholeRun};
ghost use Rattle.intmap.specs.Extending.{Extends, ExtendsUpTo, Collects, MayRefuseToCollect, IsCollected, LeavesRange};

use crate::load::{GREATEST_CAPACITY, threshold_of, wanted_capacity};
use crate::map::IntMap;
use crate::refusal::{Cause, RefusedPair};
use intmap_table::IntKey;
use intmap_table::steps::Steps;
use intmap_table::table::Table;
use std::alloc::Allocator;

/// The number of slots of a map that `new` makes.
const FIRST_CAPACITY: usize = 4;

/// The least number of slots.
const LEAST_CAPACITY: usize = 2;

/// The load factor of a new map, in thousandths.
const FIRST_FACTOR: usize = 909;

impl<K: IntKey, V: Drop, A: Allocator + Copy> IntMap<K, V, A> {
    /// An empty map of 4 slots, with a load factor of 909 thousandths. It allocates the slots and
    /// their bits. It fails only if an allocation fails, with [`Cause::Memory`].
    ///
    /// ```text
    /// let map: IntMap<u64, char> = IntMap::new(alloc)?;
    /// map                      // {}
    /// map.len()                // 0
    /// map.is_empty()           // true
    /// map.capacity()           // 4
    /// map.get_load_factor()    // 909
    /// map.assert_count()       // true
    /// ```
    pub fn new(alloc: A) -> Result<IntMap<K, V, A>, Cause>
        ensures state { IfOk result (λ made. made ≡ empty_map first_capacity) }
        ensures memory { IfErr result (λ cause. cause ≡ Cause.Memory) }
        ensures valid { IfOk result (IsMap K.number_of K.is_valid) }
    {
        IntMap::of_slots(alloc, FIRST_CAPACITY)
    }

    /// An empty map with a load factor of 909 thousandths. Its number of slots is the least power
    /// of two that is at least `capacity`, and at least 2. To make room for pairs, call
    /// [`with_room_for`](IntMap::with_room_for). It fails with [`Cause::TooLarge`] if and only if
    /// `capacity` is above 2^63, and otherwise with [`Cause::Memory`] if an allocation fails.
    ///
    /// ```text
    /// IntMap::<u64, u64>::with_capacity(alloc, 20)?.capacity()          // 32
    /// IntMap::<u64, u64>::with_capacity(alloc, 0)?.capacity()           // 2
    /// IntMap::<u64, u64>::with_capacity(alloc, 9223372036854775809)     // Err(TooLarge)
    /// ```
    pub fn with_capacity(alloc: A, capacity: usize) -> Result<IntMap<K, V, A>, Cause>
        ensures state { IfOk result (λ made. made ≡ empty_map made.capacity) }
        ensures capacity { IfOk result (λ made.
            IsLeastPower (max capacity least_capacity) made.capacity) }
        ensures too_large { (result ≡ Err Cause.TooLarge) ↔ (2 ^ 63 < capacity) }
        ensures valid { IfOk result (IsMap K.number_of K.is_valid) }
    {
        if capacity > GREATEST_CAPACITY {
            return Err(Cause::TooLarge);
        }
        IntMap::of_slots(alloc, capacity.max(LEAST_CAPACITY).next_power_of_two())
    }

    /// An empty map with room for `pairs` pairs, and a load factor of 909 thousandths. Its number
    /// of slots is the least power of two, from 2 on, in which so many pairs meet the load factor.
    /// [`reserve_pairs`](IntMap::reserve_pairs) makes the same of an empty map of two slots, but
    /// this call allocates the slots once.
    ///
    /// Insertions of keys that follow one another, such as ids, then don't fail, as
    /// [`reserve_pairs`](IntMap::reserve_pairs) says. Other keys may share a slot, and then
    /// allocate.
    ///
    /// It fails with [`Cause::TooLarge`] if and only if no capacity up to 2^63 meets the load
    /// factor, and otherwise with [`Cause::Memory`] if an allocation fails.
    ///
    /// ```text
    /// // 14 pairs in 16 slots are 875 thousandths, and 15 are 937
    /// IntMap::<u64, u64>::with_room_for(alloc, 14)?.capacity()    // 16
    /// IntMap::<u64, u64>::with_room_for(alloc, 15)?.capacity()    // 32
    /// IntMap::<u64, u64>::with_room_for(alloc, 0)?.capacity()     // 2
    /// ```
    pub fn with_room_for(alloc: A, pairs: usize) -> Result<IntMap<K, V, A>, Cause>
        ensures state { IfOk result (λ made. made ≡ empty_map made.capacity) }
        ensures capacity { IfOk result (λ made.
            MeetsFactor least_capacity pairs first_factor made.capacity) }
        ensures room { IfOk result (λ made. HasRoomInRow K.number_of made.walk made.capacity
            made.factor pairs) }
        ensures too_large { (result ≡ Err Cause.TooLarge)
            ↔ NeedsTooMuch (IsWanted least_capacity pairs first_factor) }
        ensures valid { IfOk result (IsMap K.number_of K.is_valid) }
    {
        let Some(slots) = wanted_capacity(pairs, LEAST_CAPACITY, FIRST_FACTOR) else {
            return Err(Cause::TooLarge);
        };
        IntMap::of_slots(alloc, slots)
    }

    /// An empty map of `slots` slots. It fails only if an allocation fails.
    fn of_slots(alloc: A, slots: usize) -> Result<IntMap<K, V, A>, Cause>
        requires { IsCapacity slots }
        ensures state { IfOk result (λ made. made ≡ empty_map slots) }
        ensures memory { IfErr result (λ cause. cause ≡ Cause.Memory) }
        ensures valid { IfOk result (IsMap K.number_of K.is_valid) }
    {
        match Table::new(alloc, slots) {
            Ok(table) => Ok(IntMap {
                table,
                len: 0,
                threshold: threshold_of(slots, FIRST_FACTOR),
                factor: FIRST_FACTOR,
                placed: Steps::new(),
                compared: Steps::new(),
                reserved: Steps::new(),
            }),
            Err(_) => Err(Cause::Memory),
        }
    }

    /// The allocator of the map.
    pub(crate) fn allocator(&self) -> A {
        self.table.allocator()
    }
}

impl<K: IntKey, V: Drop, A: Allocator + Copy> IntMap<K, V, A> {
    /// Inserts the iterator's pairs in turn, each as [`insert`](IntMap::insert) does, so a key
    /// keeps the last of its values. The table grows only as these insertions make it grow: nothing
    /// is reserved ahead. The iterator must be ready for a call of `next`, and must end.
    ///
    /// It stops at the first insertion that fails, and returns the key and the value of that pair,
    /// with the cause and the number of pairs before it. Those pairs stay in the map. The iterator
    /// is dropped, with the pairs that it hasn't given.
    ///
    /// ```text
    /// let mut map = IntMap::new(alloc)?;
    /// map.extend([(0, 10), (4, 14), (0, 20)].into_iter())    // Ok(())
    /// map                                                    // {4: 14, 0: 20}
    /// ```
    pub fn extend<I: Iterator<Item = (K, V)> + Drop>(
        &mut self,
        iter: I,
    ) -> Result<(), RefusedPair<K, V>>
        requires can { I.can_next iter }
        requires ends { IsFinite (I.remaining iter) }
        ensures extends { OnOk result
            (Extends K.number_of K.is_valid I.next_gives iter self.old self.new) }
        ensures runs { OnOk result (WholeRun I.next_gives iter (λ run. (q : K)
            → value_of K.number_of self.new.walk q
            ≡ option_or (value_of K.number_of (reverse run.items) q)
            (value_of K.number_of self.old.walk q))) }
        ensures len { OnOk result
            (length self.new.walk ≤ length self.old.walk + size (I.remaining iter)) }
        ensures has_room { HasRoom K.number_of self.old (size (I.remaining iter)) → IsOk result }
        ensures stops { IfErr result (λ refused.
            ExtendsUpTo K.number_of K.is_valid I.next_gives iter self.old refused self.new) }
        ensures valid { IsMap K.number_of K.is_valid self.old }
        ensures valid_after { IsMap K.number_of K.is_valid self.new }
    {
        self.known();
        let mut applied: usize = 0;
        for (key, value) in iter {
            match self.insert(key, value) {
                Ok(_) => {}
                Err(refused) => {
                    return Err(RefusedPair {
                        key,
                        value: refused.value,
                        applied,
                        cause: refused.cause,
                    });
                }
            }
            applied = applied.saturating_add(1);
        }
        Ok(())
    }

    /// A map of the iterator's pairs: [`with_capacity`](IntMap::with_capacity) of the lower bound
    /// of its `size_hint`, and then [`extend`](IntMap::extend). The iterator must be ready for a
    /// call of `next`, and must end.
    ///
    /// It fails if either call fails, with the same cause, and then drops everything.
    ///
    /// ```text
    /// IntMap::from_iter(alloc, (0..20).map(|key| (key, 'a')))?.capacity()    // 32
    /// IntMap::from_iter(alloc, (0..0).map(|key| (key, 'a')))?.capacity()     // 2
    /// ```
    pub fn from_iter<I: Iterator<Item = (K, V)> + Drop>(
        alloc: A,
        iter: I,
    ) -> Result<IntMap<K, V, A>, Cause>
        requires can { I.can_next iter }
        requires ends { IsFinite (I.remaining iter) }
        ensures collects { (b : ℕ) × (b ≤ size (I.remaining iter)) × MatchResult result
            (λ made. Collects K.number_of K.is_valid I.next_gives iter b made)
            (λ cause. MayRefuseToCollect {V = V} K.number_of K.is_valid I.next_gives iter b cause) }
        ensures runs { IfOk result (λ made. WholeRun I.next_gives iter (λ run. (q : K)
            → value_of K.number_of made.walk q ≡ value_of K.number_of (reverse run.items) q)) }
        ensures len { IfOk result (λ made. length made.walk ≤ size (I.remaining iter)) }
        ensures valid { IfOk result (IsMap K.number_of K.is_valid) }
    {
        let (lower, _) = iter.size_hint();
        let mut map = IntMap::with_capacity(alloc, lower)?;
        match map.extend(iter) {
            Ok(()) => Ok(map),
            Err(refused) => Err(refused.cause),
        }
    }

    /// A map of the array's pairs: [`with_capacity`](IntMap::with_capacity) of their number, and
    /// then [`extend`](IntMap::extend). So a key keeps the last of its values.
    ///
    /// It first allocates a vector, and moves the pairs into it. If this allocation fails, it fails
    /// with [`Cause::Memory`]. It also fails if either call fails, with the same cause. A failed
    /// call drops everything.
    ///
    /// ```text
    /// IntMap::from_array(alloc, [(4, 'a'), (0, 'b'), (4, 'c')])    // Ok({0: 'b', 4: 'c'})
    /// IntMap::<u64, char>::from_array(alloc, [])?.capacity()       // 2
    /// ```
    pub fn from_array<const N: usize>(
        alloc: A,
        pairs: [(K, V); N],
    ) -> Result<IntMap<K, V, A>, Cause>
        ensures collects { IfOk result (IsCollected K.number_of K.is_valid N pairs) }
        ensures updates { IfOk result (λ made. (q : K) → value_of K.number_of made.walk q
            ≡ value_of K.number_of (reverse pairs) q) }
        ensures len { IfOk result (λ made. length made.walk ≤ N) }
        ensures too_large { IfErr result (λ cause. cause ≡ Cause.TooLarge
            → (2 ^ 63 < N) ⊎ LeavesRange K.number_of K.is_valid N pairs) }
        ensures valid { IfOk result (IsMap K.number_of K.is_valid) }
    {
        let Ok(pairs) = Vec::from_array(alloc, pairs) else {
            return Err(Cause::Memory);
        };
        let mut map = IntMap::with_capacity(alloc, N)?;
        match map.extend(pairs.into_iter()) {
            Ok(()) => Ok(map),
            Err(failed) => Err(failed.cause),
        }
    }
}

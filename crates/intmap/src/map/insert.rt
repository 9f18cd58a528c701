//! Insertions.
ghost use Rattle.std.specs.Prelude.{◌≡◌, ◌+◌, ◌<◌, true, IfOk, IfErr, IsOk, OnOk, OnErr, None, Some, cond, is_none, is_some, length, unwrap_or, MatchBool};
ghost use Rattle.intmap_table.specs.Classes.{slot_number};
ghost use Rattle.intmap_table.specs.Bindings.{Updates, value_of};
ghost use Rattle.intmap_table.specs.Firsts.{first_of, IsFirst};
ghost use Rattle.intmap_table.specs.Locations.{IsAt};
ghost use Rattle.intmap_table.specs.Reach.{class_size};
ghost use Rattle.intmap.specs.Insertions.{IsInsertion};
ghost use Rattle.intmap.specs.Map.{NeedsNoMemory, IsMap, after_search, after_insert, with_pair};
ghost use Rattle.intmap.specs.PlainLists.{RefusalIsDue, list_of};
ghost use Rattle.intmap.specs.Room.{HasRoom};
ghost use Rattle.intmap.specs.Spots.{slot_in, IsSpot, TakesFirst, TakesOneMore, after_first, after_rest};

use crate::load::{takes_one_more, threshold_of, wanted_capacity};
use crate::map::IntMap;
use crate::refusal::{Cause, Refused};
use intmap_table::IntKey;
use intmap_table::kept::Kept;
use intmap_table::steps::Steps;
use intmap_table::table::locate::Location;
use intmap_table::table::stored::Sought;
use std::alloc::Allocator;

/// Where the pair of a key can be put at once: into its slot, which holds no pair, or into the place
/// of the first pair of its slot. `Other` is a slot for which neither is so.
#[derive(Clone, Copy)]
pub(crate) enum Spot {
    Vacant(usize),
    First(usize),
    Other(usize),
}

impl<K: IntKey, V: Drop, A: Allocator + Copy> IntMap<K, V, A> {
    /// Inserts the pair of the key and the value at the end of its slot, and returns the value that
    /// the key had before, or `None` if the key is new. If the key was present, the last pair of
    /// the slot first takes the place of the old pair, and the capacity stays.
    ///
    /// For a new key, the load is checked if the new length has its bit of value 4 set: 4 to 7, 12
    /// to 15, 20 to 23, and so on. If the pairs then exceed the load factor, all of them move to a
    /// table of the least doubled capacity that meets it, in iteration order, with the new pair
    /// last.
    ///
    /// The insertion of a present key never fails. The insertion of a new key fails with
    /// [`Cause::TooLarge`] if and only if the map holds 2^64 - 1 pairs or growth needs more than
    /// 2^63 slots, and otherwise with [`Cause::Memory`] if an allocation fails. It allocates
    /// nothing if the capacity stays and the slot holds no pair. A failed call returns the value
    /// and leaves the map as it was. Only the count of compared keys, which takes no memory,
    /// changes.
    ///
    /// ```text
    /// let mut map = IntMap::from_array(alloc, [(0, 10), (4, 14), (8, 18)])?;
    /// map.insert(4, 99)     // Ok(Some(14))
    /// map                   // {0: 10, 8: 18, 4: 99}
    /// map.insert(12, 22)    // Ok(None)
    /// // four pairs in four slots exceed 909 thousandths
    /// map.capacity()        // 8
    /// ```
    #[inline(always)]
    pub fn insert(&mut self, key: K, value: V) -> Result<Option<V>, Refused<V>>
        // what is returned and left
        ensures old { IfOk result (λ old. old ≡ value_of K.number_of self.old.walk key) }
        ensures inserted { OnOk result
            (IsInsertion K.number_of K.is_valid self.old key value self.new) }
        ensures updates { OnOk result
            (Updates K.number_of self.old.walk self.new.walk key (Some value)) }
        ensures len { IfOk result (λ old. length self.new.walk
            ≡ length self.old.walk + cond (is_some old) 0 1) }
        ensures state { OnOk result
            (self.new ≡ after_insert K.number_of self.old key value self.new.capacity) }

        // what a failure returns and leaves
        ensures err { OnErr result (self.new ≡ after_search K.number_of self.old key) }
        ensures value_returned { IfErr result (λ refused. refused.value ≡ value) }

        // when it fails
        ensures absent { OnErr result (value_of K.number_of self.old.walk key ≡ None) }
        ensures refused { IfErr result (λ refused. RefusalIsDue K.number_of (list_of self.old) key
            refused.cause) }
        ensures succeeds { NeedsNoMemory K.number_of self.old.walk self.old.capacity
            self.old.factor key → IsOk result }
        ensures has_room { HasRoom K.number_of self.old 1 → IsOk result }

        ensures valid { IsMap K.number_of K.is_valid self.old }
        ensures valid_after { IsMap K.number_of K.is_valid self.new }
    {
        let key = Sought::new(key);
        match self.spot_for(&key) {
            Spot::Vacant(slot) => {
                self.add_first(slot, key, value);
                Ok(None)
            }
            Spot::First(slot) => Ok(Some(self.replace_first(slot, key, value))),
            Spot::Other(slot) => self.insert_otherwise(slot, key, value),
        }
    }

    /// Where the pair of a key can be put at once. If the slot of the key holds a pair, the first
    /// one there is compared.
    #[inline(always)]
    pub(crate) fn spot_for(&mut self, key: &Sought<K>) -> Spot
        ensures slot { slot_in result ≡ slot_number K.number_of key.now self.old.capacity }
        ensures spot { IsSpot K.number_of self.old key.now result }
        ensures state { self.new ≡ after_first K.number_of self.old (slot_in result) }
        ensures valid { IsMap K.number_of K.is_valid self.old }
    {
        let slot = self.table.slot_of(key);
        if self.takes_first(slot) {
            return Spot::Vacant(slot);
        }
        if self.table.first_is(slot, key, &mut self.compared) {
            return Spot::First(slot);
        }
        Spot::Other(slot)
    }

    /// Whether a slot holds no pair, and the map needn't grow for one more.
    #[inline(always)]
    pub(crate) fn takes_first(&self, slot: usize) -> bool
        requires { slot < self.now.capacity }
        ensures { MatchBool result (TakesFirst K.number_of self.now.walk self.now.capacity
            self.now.factor slot) (TakesFirst K.number_of self.now.walk self.now.capacity
            self.now.factor slot → ⊥) }
    {
        self.table.is_vacant(slot) && self.takes_one_more()
    }

    /// Whether the map needn't grow for one more pair.
    #[inline(always)]
    fn takes_one_more(&self) -> bool
        ensures { MatchBool result
            (TakesOneMore self.now.walk self.now.capacity self.now.factor)
            (TakesOneMore self.now.walk self.now.capacity self.now.factor → ⊥) }
    {
        takes_one_more(self.len, self.threshold)
    }

    /// Adds the pair of a key to its slot, which holds none. The map needn't grow.
    #[inline(always)]
    pub(crate) fn add_first(&mut self, slot: usize, key: Sought<K>, value: V)
        requires slot { slot ≡ slot_number K.number_of key self.old.capacity }
        requires free { TakesFirst K.number_of self.old.walk self.old.capacity self.old.factor
            slot }
        ensures absent { value_of K.number_of self.old.walk key ≡ None }
        ensures first { IsFirst K.number_of self.new.walk self.new.capacity slot key }
        ensures known { K.is_valid key }
        ensures inserted { IsInsertion K.number_of K.is_valid self.old key value self.new }
        ensures state { self.new
            ≡ with_pair K.number_of self.old key value self.new.capacity }
        ensures valid { IsMap K.number_of K.is_valid self.old }
        ensures valid_after { IsMap K.number_of K.is_valid self.new }
    {
        self.table.fill(slot, key, Kept::new(value));
        self.len += 1;
    }

    /// Replaces the pair of a key, which is the first one of its slot, and returns the old value.
    /// The last pair of the slot takes its place, and the pair of the key and this value is put
    /// last. It allocates nothing.
    #[inline(always)]
    pub(crate) fn replace_first(&mut self, slot: usize, key: Sought<K>, value: V) -> V
        requires { IsFirst K.number_of self.old.walk self.old.capacity slot key }
        ensures value { value_of K.number_of self.old.walk key ≡ Some result }
        ensures state { self.new ≡ with_pair K.number_of self.old key value self.old.capacity }
        ensures valid_after { IsMap K.number_of K.is_valid self.new }
    {
        self.table
            .replace_first(slot, key, Kept::new(value))
            .into_value()
    }

    /// Inserts the pair of a key and a value as `insert` does, if it can't be put at once. Keys are
    /// compared from the second pair of the slot on, up to the one sought.
    #[inline(never)]
    pub(crate) fn insert_otherwise(
        &mut self,
        slot: usize,
        key: Sought<K>,
        value: V,
    ) -> Result<Option<V>, Refused<V>>
        requires slot { slot ≡ slot_number K.number_of key self.old.capacity }
        requires taken { TakesFirst K.number_of self.old.walk self.old.capacity self.old.factor slot
            → ⊥ }
        requires other { value_of K.number_of
            (first_of K.number_of self.old.walk self.old.capacity slot) key ≡ None }
        ensures old { IfOk result (λ old. old ≡ value_of K.number_of self.old.walk key) }
        ensures inserted { OnOk result
            (IsInsertion K.number_of K.is_valid self.old key value self.new) }
        ensures state { OnOk result (self.new ≡ with_pair K.number_of
            (after_rest K.number_of self.old slot key) key value self.new.capacity) }
        ensures err { OnErr result (self.new ≡ after_rest K.number_of self.old slot key) }
        ensures value_returned { IfErr result (λ refused. refused.value ≡ value) }
        ensures refused { IfErr result (λ refused. RefusalIsDue K.number_of (list_of self.old) key
            refused.cause) }
        ensures has_room { HasRoom K.number_of self.old 1 → IsOk result }
        ensures valid { IsMap K.number_of K.is_valid self.old }
        ensures valid_after { IsMap K.number_of K.is_valid self.new }
    {
        let adds = self.takes_one_more();
        let again = key.copied();
        match self
            .table
            .put(slot, key, Kept::new(value), adds, &mut self.compared)
        {
            Ok(Some(old)) => Ok(Some(old.into_value())),
            Ok(None) => {
                self.len += 1;
                Ok(None)
            }
            Err(kept) => match self.grow_or_fail(slot, again, kept, adds) {
                Ok(()) => Ok(None),
                Err(refused) => Err(refused),
            },
        }
    }

    /// Adds the pair of an absent key that the table didn't take as it is. If `adds` is true, the
    /// map needn't grow: an allocation failed, and the value is returned. Otherwise the map grows.
    #[inline(always)]
    fn grow_or_fail(
        &mut self,
        slot: usize,
        key: Sought<K>,
        kept: Kept<V>,
        adds: bool,
    ) -> Result<(), Refused<V>>
        requires missing { value_of K.number_of self.old.walk key ≡ None }
        requires slot { slot ≡ slot_number K.number_of key self.old.capacity }
        requires adds { MatchBool adds
            (TakesOneMore self.old.walk self.old.capacity self.old.factor)
            (TakesOneMore self.old.walk self.old.capacity self.old.factor → ⊥) }
        requires memory { adds ≡ true
            → 0 < class_size K.number_of self.old.walk self.old.capacity key }
        requires full { adds ≡ true → HasRoom K.number_of self.old 1 → ⊥ }
        requires valid { IsMap K.number_of K.is_valid self.old }
        ensures inserted { OnOk result
            (IsInsertion K.number_of K.is_valid self.old key kept self.new) }
        ensures state { OnOk result
            (self.new ≡ with_pair K.number_of self.old key kept self.new.capacity) }
        ensures err { OnErr result (self.new ≡ self.old) }
        ensures value_returned { IfErr result (λ refused. refused.value ≡ kept) }
        ensures refused { IfErr result (λ refused. RefusalIsDue K.number_of (list_of self.old) key
            refused.cause) }
        ensures has_room { HasRoom K.number_of self.old 1 → IsOk result }
        ensures valid_after { IsMap K.number_of K.is_valid self.new }
    {
        let value = kept.into_value();
        if adds {
            return Err(Refused {
                value,
                cause: Cause::Memory,
            });
        }
        match self.add_growing(slot, key, value) {
            Ok(_) => Ok(()),
            Err(refused) => Err(refused),
        }
    }

    /// Inserts the pair if the key is absent, and returns whether it inserted it. If the key is
    /// present, the value is dropped, and only the count of compared keys changes.
    ///
    /// For a new key it does what [`insert`](IntMap::insert) does, and fails as that does.
    ///
    /// ```text
    /// let mut map = IntMap::new(alloc)?;
    /// map.insert_checked(21, 'a')?    // true
    /// map.insert_checked(21, 'b')?    // false
    /// map                             // {21: 'a'}
    /// ```
    #[inline(always)]
    pub fn insert_checked(&mut self, key: K, value: V) -> Result<bool, Refused<V>>
        // what is returned and left
        ensures new { IfOk result (λ new. new ≡ is_none (value_of K.number_of self.old.walk key)) }
        ensures inserted { OnOk result (IsInsertion K.number_of K.is_valid self.old key
            (unwrap_or (value_of K.number_of self.old.walk key) value) self.new) }
        ensures updates { OnOk result (Updates K.number_of self.old.walk self.new.walk key
            (Some (unwrap_or (value_of K.number_of self.old.walk key) value))) }
        ensures len { IfOk result
            (λ new. length self.new.walk ≡ length self.old.walk + cond new 1 0) }
        ensures state { IfOk result (λ new. MatchBool new
            (self.new ≡ after_insert K.number_of self.old key value self.new.capacity)
            (self.new ≡ after_search K.number_of self.old key)) }

        // what a failure returns and leaves
        ensures err { OnErr result (self.new ≡ after_search K.number_of self.old key) }
        ensures value_returned { IfErr result (λ refused. refused.value ≡ value) }

        // when it fails
        ensures absent { OnErr result (value_of K.number_of self.old.walk key ≡ None) }
        ensures refused { IfErr result (λ refused. RefusalIsDue K.number_of (list_of self.old) key
            refused.cause) }
        ensures succeeds { NeedsNoMemory K.number_of self.old.walk self.old.capacity
            self.old.factor key → IsOk result }
        ensures has_room { HasRoom K.number_of self.old 1 → IsOk result }

        ensures valid { IsMap K.number_of K.is_valid self.old }
        ensures valid_after { IsMap K.number_of K.is_valid self.new }
    {
        let sought = Sought::new(key);
        match self.spot_for(&sought) {
            Spot::Vacant(slot) => {
                self.add_first(slot, sought, value);
                Ok(true)
            }
            Spot::First(_) => Ok(false),
            Spot::Other(slot) => self.insert_checked_otherwise(slot, sought, value),
        }
    }

    /// Inserts the pair of a key and a value as `insert_checked` does, if the first place of the
    /// slot doesn't settle it. Keys are compared from the second pair of the slot on, up to the one
    /// sought.
    #[inline(never)]
    fn insert_checked_otherwise(
        &mut self,
        slot: usize,
        key: Sought<K>,
        value: V,
    ) -> Result<bool, Refused<V>>
        requires slot { slot ≡ slot_number K.number_of key self.old.capacity }
        requires taken { TakesFirst K.number_of self.old.walk self.old.capacity self.old.factor slot
            → ⊥ }
        requires other { value_of K.number_of
            (first_of K.number_of self.old.walk self.old.capacity slot) key ≡ None }
        ensures new { IfOk result (λ new. new ≡ is_none (value_of K.number_of self.old.walk key)) }
        ensures inserted { OnOk result (IsInsertion K.number_of K.is_valid self.old key
            (unwrap_or (value_of K.number_of self.old.walk key) value) self.new) }
        ensures state { IfOk result (λ new. MatchBool new
            (self.new ≡ with_pair K.number_of
            (after_rest K.number_of self.old slot key) key value self.new.capacity)
            (self.new ≡ after_rest K.number_of self.old slot key)) }
        ensures err { OnErr result (self.new ≡ after_rest K.number_of self.old slot key) }
        ensures value_returned { IfErr result (λ refused. refused.value ≡ value) }
        ensures refused { IfErr result (λ refused. RefusalIsDue K.number_of (list_of self.old) key
            refused.cause) }
        ensures has_room { HasRoom K.number_of self.old 1 → IsOk result }
        ensures valid { IsMap K.number_of K.is_valid self.old }
        ensures valid_after { IsMap K.number_of K.is_valid self.new }
    {
        let adds = self.takes_one_more();
        let again = key.copied();
        match self
            .table
            .add_checked(slot, key, Kept::new(value), adds, &mut self.compared)
        {
            Ok(true) => {
                self.len += 1;
                Ok(true)
            }
            Ok(false) => Ok(false),
            Err(kept) => match self.grow_or_fail(slot, again, kept, adds) {
                Ok(()) => Ok(true),
                Err(refused) => Err(refused),
            },
        }
    }

    /// Adds the pair of an absent key in its slot, and returns where it is. It compares no key.
    #[inline(always)]
    pub(crate) fn add(
        &mut self,
        slot: usize,
        key: Sought<K>,
        value: V,
    ) -> Result<Location<K>, Refused<V>>
        requires missing { value_of K.number_of self.old.walk key ≡ None }
        requires slot { slot ≡ slot_number K.number_of key self.old.capacity }
        ensures key { IfOk result (λ at. at.key ≡ key) }
        ensures at { IfOk result (IsAt K.number_of self.new.walk self.new.capacity) }
        ensures known { OnOk result (K.is_valid key) }
        ensures inserted { OnOk result
            (IsInsertion K.number_of K.is_valid self.old key value self.new) }
        ensures state { OnOk result
            (self.new ≡ with_pair K.number_of self.old key value self.new.capacity) }
        ensures err { OnErr result (self.new ≡ self.old) }
        ensures value_returned { IfErr result (λ refused. refused.value ≡ value) }
        ensures refused { IfErr result (λ refused. RefusalIsDue K.number_of (list_of self.old) key
            refused.cause) }
        ensures has_room { HasRoom K.number_of self.old 1 → IsOk result }
        ensures valid { IsMap K.number_of K.is_valid self.old }
        ensures valid_after { IsMap K.number_of K.is_valid self.new }
    {
        if !self.takes_one_more() {
            // taken apart, since the compiler otherwise writes the location byte by byte
            match self.add_growing(slot, key, value) {
                Ok(at) => return Ok(at),
                Err(refused) => return Err(refused),
            }
        }
        match self.table.add(slot, key, Kept::new(value)) {
            Ok(at) => {
                self.len += 1;
                Ok(at)
            }
            Err(kept) => Err(Refused {
                value: kept.into_value(),
                cause: Cause::Memory,
            }),
        }
    }

    /// Adds the pair of an absent key, if the slots don't take one more, and returns where it is.
    /// All memory is allocated before a pair moves.
    #[inline(never)]
    fn add_growing(
        &mut self,
        slot: usize,
        key: Sought<K>,
        value: V,
    ) -> Result<Location<K>, Refused<V>>
        requires missing { value_of K.number_of self.old.walk key ≡ None }
        requires slot { slot ≡ slot_number K.number_of key self.old.capacity }
        requires full { TakesOneMore self.old.walk self.old.capacity self.old.factor → ⊥ }
        ensures key { IfOk result (λ at. at.key ≡ key) }
        ensures at { IfOk result (IsAt K.number_of self.new.walk self.new.capacity) }
        ensures known { OnOk result (K.is_valid key) }
        ensures inserted { OnOk result
            (IsInsertion K.number_of K.is_valid self.old key value self.new) }
        ensures state { OnOk result
            (self.new ≡ with_pair K.number_of self.old key value self.new.capacity) }
        ensures err { OnErr result (self.new ≡ self.old) }
        ensures value_returned { IfErr result (λ refused. refused.value ≡ value) }
        ensures refused { IfErr result (λ refused. RefusalIsDue K.number_of (list_of self.old) key
            refused.cause) }
        ensures valid_after { IsMap K.number_of K.is_valid self.new }
    {
        if self.len == usize::MAX {
            return Err(Refused {
                value,
                cause: Cause::TooLarge,
            });
        }
        let len = self.len + 1;
        let Some(capacity) = wanted_capacity(len, self.table.capacity(), self.factor) else {
            return Err(Refused {
                value,
                cause: Cause::TooLarge,
            });
        };
        let threshold = threshold_of(capacity, self.factor);
        match self
            .table
            .grow_and_add(capacity, slot, key, Kept::new(value), &mut self.placed)
        {
            Ok(at) => {
                self.len = len;
                self.threshold = threshold;
                self.reserved = Steps::new();
                Ok(at)
            }
            Err(kept) => Err(Refused {
                value: kept.into_value(),
                cause: Cause::Memory,
            }),
        }
    }
}

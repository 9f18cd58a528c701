//! Entries of present keys.
ghost use Rattle.std.specs.Prelude.{◌≡◌, ◌+◌, length, Some, None, cond, false, is_some};
ghost use Rattle.std.specs.Borrow.{sem};
ghost use Rattle.intmap_table.specs.Bindings.{Updates, value_of};
ghost use Rattle.intmap_table.specs.Classes.{same_key};
ghost use Rattle.intmap_table.specs.HandingOver.{HandsOver};
ghost use Rattle.intmap.specs.Entries.{Occupied, entry_reference, entry_map, entry_key, entry_value, map_with_value, entry_lends, occupied_lends, IsWritten};
ghost use Rattle.intmap.specs.Map.{IsMap, with_pair, without_key};

use crate::entry::OccupiedEntry;
use crate::map::IntMap;
use intmap_table::IntKey;
use std::alloc::Allocator;
use std::mem;

impl<'a, K: IntKey, V, A: Allocator + Copy> OccupiedEntry<'a, K, V, A> {
    /// The key.
    pub fn key(&self) -> &K
        ensures value { result.now ≡ entry_key (Occupied self.now) }
    {
        self.map.key_at(self.slot, self.place)
    }

    /// The value of the key.
    #[inline(always)]
    pub fn get(&self) -> &V
        ensures value { entry_value (Occupied self.now) ≡ Some result.now }
    {
        self.map.value_in(self.slot, self.place)
    }

    /// A mutable reference to the value of the key. It can't outlive the entry; `into_mut` returns
    /// one that lasts as long as the map is borrowed.
    #[inline(always)]
    pub fn get_mut(&mut self) -> &mut V
        ensures* writes_back { sem 𝓛 (occupied_lends K.row V.row A.row A.Allocator
            self.entry result) }
        ensures value { entry_value (Occupied self.old) ≡ Some result.now }
        ensures updates { (v : V) → Updates K.number_of (entry_map (Occupied self.old)).walk
            (map_with_value (Occupied self.old) v).walk (entry_key (Occupied self.old))
            (Some v) }
        ensures len { (v : V) → length (map_with_value (Occupied self.old) v).walk
            ≡ length (entry_map (Occupied self.old)).walk }
        ensures valid_after { (v : V)
            → IsMap K.number_of K.is_valid (map_with_value (Occupied self.old) v) }
    {
        let slot = self.slot;
        let place = self.place;
        self.map.value_mut_in(slot, place)
    }

    /// A mutable reference to the value of the key, for as long as the map is borrowed.
    #[inline(always)]
    pub fn into_mut(self) -> &'a mut V
        ensures* writes_back { sem 𝓛 (entry_lends K.row V.row A.row A.Allocator
            (Occupied self.entry) result) }
        ensures value { entry_value (Occupied self.entry) ≡ Some result.now }
        ensures updates { (v : V) → Updates K.number_of (entry_map (Occupied self.entry)).walk
            (map_with_value (Occupied self.entry) v).walk (entry_key (Occupied self.entry))
            (Some v) }
        ensures len { (v : V) → length (map_with_value (Occupied self.entry) v).walk
            ≡ length (entry_map (Occupied self.entry)).walk }
        ensures valid_after { (v : V)
            → IsMap K.number_of K.is_valid (map_with_value (Occupied self.entry) v) }
    {
        let OccupiedEntry { map, slot, place } = self;
        map.value_mut_in(slot, place)
    }

    /// Sets the value of the key in its place, and returns the old value.
    #[inline]
    pub fn insert(&mut self, value: V) -> V
        ensures old { entry_value (Occupied self.old) ≡ Some result }
        ensures written { IsWritten (Occupied self.old) value (Occupied self.new) }
        ensures updates { Updates K.number_of (entry_map (Occupied self.old)).walk
            (entry_map (Occupied self.new)).walk (entry_key (Occupied self.old)) (Some value) }
        ensures len { length (entry_map (Occupied self.new)).walk
            ≡ length (entry_map (Occupied self.old)).walk }
        ensures valid_after { IsMap K.number_of K.is_valid (entry_map (Occupied self.new)) }
    {
        mem::replace(self.get_mut(), value)
    }

    /// Removes the pair of the key, as [`IntMap::remove`](crate::IntMap::remove) does, and returns
    /// its value.
    #[inline]
    pub fn remove(self) -> V
        ensures value { entry_value (Occupied self.entry) ≡ Some result }
        ensures state { self.exit.0.now ≡ without_key K.number_of (entry_map (Occupied self.entry))
            (entry_key (Occupied self.entry)) }
        ensures updates { Updates K.number_of (entry_map (Occupied self.entry)).walk
            self.exit.0.now.walk (entry_key (Occupied self.entry)) None }
        ensures len { length self.exit.0.now.walk + 1
            ≡ length (entry_map (Occupied self.entry)).walk }
        ensures valid_after { IsMap K.number_of K.is_valid self.exit.0.now }
    {
        self.remove_entry().1
    }

    /// Removes the pair of the key and returns it. It does what [`remove`](OccupiedEntry::remove)
    /// does, and returns the key beside the value.
    ///
    /// ```text
    /// let mut map = IntMap::from_array(alloc, [(0, 'a'), (4, 'b'), (8, 'c')])?;
    /// if let Entry::Occupied(entry) = map.entry(0) {
    ///     entry.remove_entry()    // (0, 'a')
    /// }
    /// map    // {8: 'c', 4: 'b'}
    /// ```
    pub fn remove_entry(self) -> (K, V)
        ensures key { result.0 ≡ entry_key (Occupied self.entry) }
        ensures value { entry_value (Occupied self.entry) ≡ Some result.1 }
        ensures state { self.exit.0.now ≡ without_key K.number_of (entry_map (Occupied self.entry))
            (entry_key (Occupied self.entry)) }
        ensures updates { Updates K.number_of (entry_map (Occupied self.entry)).walk
            self.exit.0.now.walk (entry_key (Occupied self.entry)) None }
        ensures len { length self.exit.0.now.walk + 1
            ≡ length (entry_map (Occupied self.entry)).walk }
        ensures valid_after { IsMap K.number_of K.is_valid self.exit.0.now }
    {
        let slot = self.slot;
        let place = self.place;
        let at = self.map.location(slot, place);
        (at.key, self.map.take_at(at))
    }

    /// Removes the pair of the key, and hands its value to the closure, which is called once. If
    /// the closure returns `Ok`, the call returns what is in it, and the pair is gone as after
    /// [`remove`](OccupiedEntry::remove).
    ///
    /// If the closure returns a value as its error, the one that it got or another, the call
    /// returns `None`, and the key has the returned value. Its pair is then at the end of its slot,
    /// where [`IntMap::insert`](crate::IntMap::insert) of a present key puts it. That needs no
    /// memory, so the call never fails. The closure must be callable at the value of the key.
    ///
    /// ```text
    /// let mut map = IntMap::from_array(alloc, [(0, 'a'), (4, 'b'), (8, 'c')])?;
    /// if let Entry::Occupied(entry) = map.entry(0) {
    ///     let taken: Option<char> = entry.hand_over(|value| Err(value));
    ///     taken    // None
    /// }
    /// map    // {8: 'c', 4: 'b', 0: 'a'}
    /// if let Entry::Occupied(entry) = map.entry(8) {
    ///     entry.hand_over(|value| Ok(value))    // Some('c')
    /// }
    /// map    // {0: 'a', 4: 'b'}
    /// ```
    pub fn hand_over<R, F: FnOnce(V) -> Result<R, V>>(self, f: F) -> Option<R>
        requires callable { (value : V) → entry_value (Occupied self) ≡ Some value → F.pre f value }

        // what the closure returned, and what is left for it
        ensures updates { (value : V) × (entry_value (Occupied self.entry) ≡ Some value)
            × HandsOver (F.post f value) result
            (Updates K.number_of (entry_map (Occupied self.entry)).walk self.exit.0.now.walk
            (entry_key (Occupied self.entry)) None)
            (λ back. Updates K.number_of (entry_map (Occupied self.entry)).walk
            self.exit.0.now.walk (entry_key (Occupied self.entry)) (Some back)) }
        ensures state { (value : V) × (entry_value (Occupied self.entry) ≡ Some value)
            × HandsOver (F.post f value) result
            (self.exit.0.now ≡ without_key K.number_of (entry_map (Occupied self.entry))
            (entry_key (Occupied self.entry)))
            (λ back. self.exit.0.now ≡ with_pair K.number_of (entry_map (Occupied self.entry))
            (entry_key (Occupied self.entry)) back (entry_map (Occupied self.entry)).capacity) }

        // what is left in either case
        ensures others { (q : K) → same_key K.number_of (entry_key (Occupied self.entry)) q ≡ false
            → value_of K.number_of self.exit.0.now.walk q
            ≡ value_of K.number_of (entry_map (Occupied self.entry)).walk q }
        ensures len { length self.exit.0.now.walk + cond (is_some result) 1 0
            ≡ length (entry_map (Occupied self.entry)).walk }
        ensures capacity { self.exit.0.now.capacity ≡ (entry_map (Occupied self.entry)).capacity }
        ensures factor { self.exit.0.now.factor ≡ (entry_map (Occupied self.entry)).factor }
        ensures valid { IsMap K.number_of K.is_valid (entry_map (Occupied self.entry)) }
        ensures valid_after { IsMap K.number_of K.is_valid self.exit.0.now }
    {
        let slot = self.slot;
        let place = self.place;
        let at = self.map.location(slot, place);
        self.map.hand_over_at(at, f)
    }

    /// Ends the entry, and leaves the map as the calls on the entry left it. It removes no pair and
    /// compares no key.
    pub fn leave(self)
        ensures state { self.exit.0.now ≡ entry_map (Occupied self.entry) }
    {
        let OccupiedEntry { .. } = self;
    }

    /// The map, as the calls on the entry left it, for as long as the map was borrowed. It removes
    /// no pair and compares no key.
    pub fn into_map(self) -> &'a mut IntMap<K, V, A>
        ensures same_reference { result.ghost_name
            ≡ (entry_reference (Occupied self.entry)).ghost_name }
        ensures state { result.now ≡ entry_map (Occupied self.entry) }
    {
        let OccupiedEntry {
            map,
            slot: _,
            place: _,
        } = self;
        map
    }
}

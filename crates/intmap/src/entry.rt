//! Entries: a map with a key that was looked up once, to read, write, remove or insert its pair.
ghost use Rattle.std.specs.Prelude.{◌≡◌, None, length, IsSome, Some, IfOk, IfErr, OnErr, OnOk, IsOk, unwrap_or, MatchOption};
ghost use Rattle.intmap_table.specs.Bindings.{value_of, Updates};
ghost use Rattle.intmap_table.specs.Classes.{slot_number};
ghost use Rattle.intmap_table.specs.Locations.{IsFound};
ghost use Rattle.std.specs.Borrow.{sem, MutBor};
ghost use Rattle.std.specs.Map.Calls.{ModifiesValue};
ghost use Rattle.intmap.specs.Insertions.{IsInsertion};
ghost use Rattle.intmap.specs.Map.{NeedsNoMemory, IsMap, after_search};
ghost use Rattle.intmap.specs.PlainLists.{RefusalIsDue};
ghost use Rattle.intmap.specs.Room.{HasRoom};

mod insert;
mod occupied;
mod vacant;

use crate::map::IntMap;
use crate::refusal::Refused;
use intmap_table::IntKey;
use intmap_table::table::stored::Sought;
use std::alloc::{Allocator, Global};

/// A map with a key that was looked up in it, made by [`IntMap::entry`].
#[derive(Drop)]
pub enum Entry<'a, K: IntKey, V, A: Allocator + Copy = Global> {
    /// The key is present.
    Occupied(OccupiedEntry<'a, K, V, A>),
    /// The key is absent.
    Vacant(VacantEntry<'a, K, V, A>),
}

/// A map with a key that is present in it.
///
/// ```text
/// let mut map = IntMap::from_array(alloc, [(0, 5), (4, 7)])?;
/// if let Entry::Occupied(mut entry) = map.entry(0) {
///     *entry.get_mut() += 1;
///     entry.insert(9)    // 6
///     entry.key()        // 0
///     entry.get()        // 9
///     entry.leave();
/// }
/// map    // {0: 9, 4: 7}
/// ```
#[derive(Drop)]
pub struct OccupiedEntry<'a, K: IntKey, V, A: Allocator + Copy = Global> {
    map: &'a mut IntMap<K, V, A>,
    slot: usize,
    place: usize,
    ghost found: { IsFound K.number_of map.now.walk map.now.capacity slot place },
}

/// A map with a key that is absent from it.
///
/// ```text
/// let mut map = IntMap::from_array(alloc, [(21, 'b')])?;
/// if let Entry::Vacant(entry) = map.entry(22) {
///     entry.key()           // 22
///     entry.insert('c')?    // 'c'
/// }
/// map    // {22: 'c', 21: 'b'}
/// ```
pub struct VacantEntry<'a, K: IntKey, V, A: Allocator + Copy = Global> {
    map: &'a mut IntMap<K, V, A>,
    key: K,
    slot: usize,
    ghost missing: { value_of K.number_of map.now.walk key ≡ None },
    ghost in_slot: { slot ≡ slot_number K.number_of key map.now.capacity },
}

/// Dropping it leaves the map as it is.
impl<K: IntKey, V, A: Allocator + Copy> Drop for VacantEntry<'_, K, V, A> {
    ghost use Rattle.std.specs.Prelude.{◌≡◌};
    ghost use Rattle.intmap.specs.Entries.{Vacant, entry_map};

    fn drop(self)
        ensures { self.exit.0.now ≡ entry_map (Vacant self.entry) }
    {
        let VacantEntry {
            map: _,
            key: _,
            slot: _,
        } = self;
    }
}

impl<K: IntKey, V, A: Allocator + Copy> IntMap<K, V, A> {
    ghost use Rattle.intmap.specs.Entries.{entry_reference, entry_map, entry_key, MatchEntry};

    /// An entry of the key: [`Occupied`](Entry::Occupied) if the key is present, and otherwise
    /// [`Vacant`](Entry::Vacant). The key is looked up as by [`get_counted`](IntMap::get_counted),
    /// and no call of the entry compares a key again. It never fails.
    ///
    /// The entry borrows the map. Dropping it without another call leaves the map as it was, except
    /// for the count of compared keys. A caller's proof knows this of an entry that a `match` takes
    /// apart, and of any entry that is ended by [`OccupiedEntry::leave`] or [`Entry::into_map`].
    ///
    /// ```text
    /// let mut map = IntMap::from_array(alloc, [(21, 5)])?;
    /// match map.entry(21) {
    ///     Entry::Occupied(entry) => *entry.into_mut() += 1,
    ///     Entry::Vacant(entry) => *entry.insert(0)? += 1,
    /// }
    /// map                    // {21: 6}
    /// map.entry(22).key()    // 22
    /// ```
    #[inline(always)]
    pub fn entry(&mut self, key: K) -> Entry<'_, K, V, A>
        ensures same_reference { (entry_reference result).ghost_name ≡ self.entry.ghost_name }
        ensures state { entry_map result ≡ after_search K.number_of self.old key }
        ensures key { entry_key result ≡ key }
        ensures occupied { MatchEntry result (IsSome (value_of K.number_of self.old.walk key))
            (value_of K.number_of self.old.walk key ≡ None) }
        ensures valid { IsMap K.number_of K.is_valid self.old }
        ensures valid_after { IsMap K.number_of K.is_valid (entry_map result) }
    {
        match self.locate(&Sought::new(key)) {
            Ok(at) => Entry::Occupied(OccupiedEntry {
                map: self,
                slot: at.slot,
                place: at.place,
            }),
            Err(slot) => Entry::Vacant(VacantEntry {
                map: self,
                key,
                slot,
            }),
        }
    }
}

impl<'a, K: IntKey, V, A: Allocator + Copy> Entry<'a, K, V, A> {
    ghost use Rattle.intmap.specs.Entries.{entry_reference, entry_map, entry_key, entry_value, entry_list, map_with_value, entry_lends_ok};

    /// The key that was looked up.
    pub fn key(&self) -> &K
        ensures value { result.now ≡ entry_key self.now }
    {
        match self {
            Entry::Occupied(entry) => entry.key(),
            Entry::Vacant(entry) => entry.key(),
        }
    }

    /// A mutable reference to the value of the key. If the key is absent, `value` is inserted
    /// first. If this insertion fails, it fails as [`VacantEntry::insert`] does, and the failure
    /// returns `value`. If the key is present, `value` is dropped, and the call never fails.
    ///
    /// ```text
    /// let mut map = IntMap::from_array(alloc, [(21, 5)])?;
    /// *map.entry(21).or_insert(0)? += 1;
    /// *map.entry(22).or_insert(0)? += 1;
    /// map    // {22: 1, 21: 6}
    /// ```
    #[inline]
    pub fn or_insert(self, value: V) -> Result<&'a mut V, Refused<V>>
    where
        V: Drop,
        // what is returned and left
        ensures* writes_back { sem 𝓛 (entry_lends_ok K.row V.row A.row A.Allocator
            self.entry result) }
        ensures value { IfOk result (λ r. r.now ≡ unwrap_or (entry_value self.entry) value) }
        ensures inserted { OnOk result ((v : V) → IsInsertion K.number_of K.is_valid
            (entry_map self.entry) (entry_key self.entry) v (map_with_value self.entry v)) }

        // what a failure returns
        ensures value_returned { IfErr result (λ refused. refused.value ≡ value) }

        // when it fails
        ensures absent { OnErr result (entry_value self.entry ≡ None) }
        ensures refused { IfErr result (λ refused. RefusalIsDue K.number_of (entry_list self.entry)
            (entry_key self.entry) refused.cause) }
        ensures succeeds { NeedsNoMemory K.number_of (entry_map self.entry).walk
            (entry_map self.entry).capacity (entry_map self.entry).factor (entry_key self.entry)
            → IsOk result }
        ensures has_room { HasRoom K.number_of (entry_map self.entry) 1 → IsOk result }
    {
        match self {
            Entry::Occupied(entry) => Ok(entry.into_mut()),
            Entry::Vacant(entry) => entry.insert(value),
        }
    }

    /// If the key is present, calls the closure with a mutable reference to its value. The call
    /// returns the entry. If the key is present, the closure must be callable at its value.
    ///
    /// ```text
    /// let mut map = IntMap::from_array(alloc, [(21, 5)])?;
    /// map.entry(21).and_modify(|count| *count += 1).or_insert(1)?    // 6
    /// map.entry(22).and_modify(|count| *count += 1).or_insert(1)?    // 1
    /// ```
    #[inline(always)]
    pub fn and_modify<F: FnOnce(&mut V)>(self, f: F) -> Entry<'a, K, V, A>
        requires { (p : MutBor V) → entry_value self ≡ Some p.now → F.pre f p }
        ensures same_reference { (entry_reference result).ghost_name
            ≡ (entry_reference self.entry).ghost_name }
        ensures key { entry_key result ≡ entry_key self.entry }
        ensures value { ModifiesValue F.FnOnce f (entry_value self.entry) (entry_value result) }
        ensures state { MatchOption (entry_value result) (entry_map result ≡ entry_map self.entry)
            (λ v. entry_map result ≡ map_with_value self.entry v) }
        ensures updates { MatchOption (entry_value result) (entry_map result ≡ entry_map self.entry)
            (λ v. Updates K.number_of (entry_map self.entry).walk (entry_map result).walk
            (entry_key self.entry) (Some v)) }
        ensures len { length (entry_map result).walk ≡ length (entry_map self.entry).walk }
        ensures valid_after { IsMap K.number_of K.is_valid (entry_map result) }
    {
        match self {
            Entry::Occupied(mut entry) => {
                f(entry.get_mut());
                Entry::Occupied(entry)
            }
            Entry::Vacant(entry) => {
                entry.map.known();
                Entry::Vacant(entry)
            }
        }
    }

    /// The map, as the calls on the entry left it, for as long as the map was borrowed. It inserts
    /// no pair, removes none and compares no key.
    ///
    /// ```text
    /// let mut map = IntMap::from_array(alloc, [(21, 5)])?;
    /// map.entry(21).and_modify(|count| *count += 1).into_map()    // {21: 6}
    /// ```
    pub fn into_map(self) -> &'a mut IntMap<K, V, A>
        ensures same_reference { result.ghost_name ≡ (entry_reference self.entry).ghost_name }
        ensures state { result.now ≡ entry_map self.entry }
    {
        match self {
            Entry::Occupied(entry) => entry.into_map(),
            Entry::Vacant(entry) => entry.into_map(),
        }
    }
}

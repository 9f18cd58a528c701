//! Insertions at an entry. Some take a closure, which makes the value only if the key is absent,
//! and may fail to make it. Others return the entry of the key.
ghost use Rattle.std.specs.Prelude.{◌≡◌, None, IfOk, IfErr, OnOk, IsOk, ◌⊎◌, Ok, Err, OnErr};
ghost use Rattle.std.specs.Borrow.{sem};
ghost use Rattle.std.specs.Option.{UnwrapsOrElse};
ghost use Rattle.intmap.specs.Entries.{entry_map, entry_key, entry_value, entry_list, map_with_value, entry_lends_ok, Vacant, IsMadeRefusal, Occupied, IsWritten, entry_rests};
ghost use Rattle.intmap.specs.Insertions.{IsInsertion};
ghost use Rattle.intmap.specs.Map.{NeedsNoMemory};
ghost use Rattle.intmap.specs.PlainLists.{RefusalIsDue};
ghost use Rattle.intmap.specs.Room.{HasRoom};

use crate::entry::{Entry, OccupiedEntry, VacantEntry};
use crate::refusal::Refused;
use intmap_table::IntKey;
use intmap_table::table::stored::Sought;
use std::alloc::Allocator;
use std::default::MadeWith;

impl<'a, K: IntKey, V: Drop, A: Allocator + Copy> VacantEntry<'a, K, V, A> {
    /// Inserts the pair of the key and the value as [`insert`](VacantEntry::insert) does, and
    /// returns the entry of the key, which is then present. It fails as that does.
    ///
    /// ```text
    /// let mut map: IntMap<u64, char> = IntMap::new(alloc)?;
    /// if let Entry::Vacant(entry) = map.entry(21) {
    ///     let entry = entry.insert_entry('d')?;
    ///     entry.get()    // 'd'
    /// }
    /// ```
    #[inline(always)]
    pub fn insert_entry(self, value: V) -> Result<OccupiedEntry<'a, K, V, A>, Refused<V>>
        // what is returned and left
        ensures written { IfOk result (λ entry. IsWritten (Vacant self.entry) value
            (Occupied entry)) }
        ensures absent { entry_value (Vacant self.entry) ≡ None }
        ensures inserted { IfOk result (λ entry. IsInsertion K.number_of K.is_valid
            (entry_map (Vacant self.entry)) (entry_key (Vacant self.entry)) value
            (entry_map (Occupied entry))) }

        // what a failure returns and leaves
        ensures* err { sem 𝓛 (entry_rests K.row V.row A.row A.Allocator (Vacant self.entry)
            result) }
        ensures value_returned { IfErr result (λ refused. refused.value ≡ value) }

        // when it fails
        ensures refused { IfErr result (λ refused. RefusalIsDue K.number_of
            (entry_list (Vacant self.entry)) (entry_key (Vacant self.entry)) refused.cause) }
        ensures succeeds { NeedsNoMemory K.number_of (entry_map (Vacant self.entry)).walk
            (entry_map (Vacant self.entry)).capacity (entry_map (Vacant self.entry)).factor
            (entry_key (Vacant self.entry)) → IsOk result }
        ensures has_room { HasRoom K.number_of (entry_map (Vacant self.entry)) 1 → IsOk result }
    {
        let VacantEntry { map, key, slot } = self;
        let at = match map.add(slot, Sought::new(key), value) {
            Ok(at) => at,
            Err(refused) => return Err(refused),
        };
        Ok(OccupiedEntry {
            map,
            slot: at.slot,
            place: at.place,
        })
    }

    /// Inserts the value as [`insert`](VacantEntry::insert) does, if one was made. If making one
    /// failed, it returns that error as it is. If the insertion fails, it returns the error that is
    /// made of the failure.
    fn insert_made<E: From<Refused<V>>>(self, made: Result<V, E>) -> Result<&'a mut V, E>
        // what is returned and left
        ensures* writes_back { sem 𝓛 (entry_lends_ok K.row V.row A.row A.Allocator
            (Vacant self.entry) result) }
        ensures value { IfOk result (λ r. made ≡ Ok r.now) }
        ensures inserted { OnOk result ((v : V) → IsInsertion K.number_of K.is_valid
            (entry_map (Vacant self.entry)) (entry_key (Vacant self.entry)) v
            (map_with_value (Vacant self.entry) v)) }

        // what is returned if no value is inserted
        ensures err { IfErr result (λ e. (made ≡ Err e) ⊎ IsMadeRefusal (λ m. m ≡ made)
            E.from_gives (RefusalIsDue K.number_of (entry_list (Vacant self.entry))
            (entry_key (Vacant self.entry))) e) }
        ensures succeeds { NeedsNoMemory K.number_of (entry_map (Vacant self.entry)).walk
            (entry_map (Vacant self.entry)).capacity (entry_map (Vacant self.entry)).factor
            (entry_key (Vacant self.entry)) → IfErr result (λ e. made ≡ Err e) }
        ensures has_room { HasRoom K.number_of (entry_map (Vacant self.entry)) 1
            → IfErr result (λ e. made ≡ Err e) }
    {
        let VacantEntry { map, key, slot } = self;
        let value = match made {
            Ok(value) => value,
            Err(error) => return Err(error),
        };
        let at = match map.add(slot, Sought::new(key), value) {
            Ok(at) => at,
            Err(refused) => return Err(E::from(refused)),
        };
        Ok(map.value_mut_in(at.slot, at.place))
    }
}

impl<'a, K: IntKey, V: Drop, A: Allocator + Copy> Entry<'a, K, V, A> {
    /// A mutable reference to the value of the key.
    ///
    /// If the key is present, the closure isn't called, and the call never fails. If the key is
    /// absent, the closure is called once with it, before any memory is allocated, and the value
    /// that it makes is inserted first. If this insertion fails, it fails as
    /// [`VacantEntry::insert`](crate::entry::VacantEntry::insert) does, and the failure returns the
    /// value that was made. The closure must be callable at an absent key.
    ///
    /// ```text
    /// let mut map: IntMap<u64, u64> = IntMap::new(alloc)?;
    /// map.entry(21).or_insert_with_key(|key| key / 2)?    // 10
    /// ```
    #[inline]
    pub fn or_insert_with_key<F: FnOnce(K) -> V>(self, f: F) -> Result<&'a mut V, Refused<V>>
        requires { entry_value self ≡ None → F.pre f (entry_key self) }

        // what is returned and left
        ensures* writes_back { sem 𝓛 (entry_lends_ok K.row V.row A.row A.Allocator
            self.entry result) }
        ensures value { IfOk result (λ r. UnwrapsOrElse (entry_value self.entry)
            (F.post f (entry_key self.entry)) r.now) }
        ensures inserted { OnOk result ((v : V) → IsInsertion K.number_of K.is_valid
            (entry_map self.entry) (entry_key self.entry) v (map_with_value self.entry v)) }

        // what a failure returns
        ensures value_returned { IfErr result
            (λ refused. F.post f (entry_key self.entry) refused.value) }

        // when it fails
        ensures absent { OnErr result (entry_value self.entry ≡ None) }
        ensures refused { IfErr result (λ refused. RefusalIsDue K.number_of (entry_list self.entry)
            (entry_key self.entry) refused.cause) }
        ensures succeeds { NeedsNoMemory K.number_of (entry_map self.entry).walk
            (entry_map self.entry).capacity (entry_map self.entry).factor (entry_key self.entry)
            → IsOk result }
        ensures has_room { HasRoom K.number_of (entry_map self.entry) 1 → IsOk result }
    {
        match self {
            Entry::Occupied(entry) => Ok(entry.into_mut()),
            Entry::Vacant(entry) => {
                let value = f(*entry.key());
                entry.insert(value)
            }
        }
    }

    /// A mutable reference to the value of the key, as
    /// [`or_insert_with_key`](Entry::or_insert_with_key) returns it, by a closure that takes no
    /// key.
    ///
    /// ```text
    /// let mut map = IntMap::from_array(alloc, [(21, 5)])?;
    /// map.entry(21).or_insert_with(|| 7)?    // 5
    /// map.entry(22).or_insert_with(|| 7)?    // 7
    /// ```
    #[inline]
    pub fn or_insert_with<F: FnOnce() -> V>(self, f: F) -> Result<&'a mut V, Refused<V>>
        requires { entry_value self ≡ None → F.pre f }

        // what is returned and left
        ensures* writes_back { sem 𝓛 (entry_lends_ok K.row V.row A.row A.Allocator
            self.entry result) }
        ensures value { IfOk result
            (λ r. UnwrapsOrElse (entry_value self.entry) (F.post f) r.now) }
        ensures inserted { OnOk result ((v : V) → IsInsertion K.number_of K.is_valid
            (entry_map self.entry) (entry_key self.entry) v (map_with_value self.entry v)) }

        // what a failure returns
        ensures value_returned { IfErr result (λ refused. F.post f refused.value) }

        // when it fails
        ensures absent { OnErr result (entry_value self.entry ≡ None) }
        ensures refused { IfErr result (λ refused. RefusalIsDue K.number_of (entry_list self.entry)
            (entry_key self.entry) refused.cause) }
        ensures succeeds { NeedsNoMemory K.number_of (entry_map self.entry).walk
            (entry_map self.entry).capacity (entry_map self.entry).factor (entry_key self.entry)
            → IsOk result }
        ensures has_room { HasRoom K.number_of (entry_map self.entry) 1 → IsOk result }
    {
        self.or_insert_with_key(|_key| f())
    }

    /// A mutable reference to the value of the key, as
    /// [`or_insert_with_key`](Entry::or_insert_with_key) returns it. If the key is absent, the
    /// default value of the type is inserted. For a collection, that is an empty one over the
    /// allocator of the map.
    ///
    /// ```text
    /// let mut map: IntMap<u64, u64> = IntMap::new(alloc)?;
    /// *map.entry(21).or_default()? += 1;
    /// map    // {21: 1}
    /// ```
    #[inline]
    pub fn or_default(self) -> Result<&'a mut V, Refused<V>>
    where
        V: MadeWith<A>,
        // what is returned and left
        ensures* writes_back { sem 𝓛 (entry_lends_ok K.row V.row A.row A.Allocator
            self.entry result) }
        ensures value { IfOk result
            (λ r. UnwrapsOrElse (entry_value self.entry) V.is_made_with r.now) }
        ensures inserted { OnOk result ((v : V) → IsInsertion K.number_of K.is_valid
            (entry_map self.entry) (entry_key self.entry) v (map_with_value self.entry v)) }

        // what a failure returns
        ensures value_returned { IfErr result (λ refused. V.is_made_with refused.value) }

        // when it fails
        ensures absent { OnErr result (entry_value self.entry ≡ None) }
        ensures refused { IfErr result (λ refused. RefusalIsDue K.number_of (entry_list self.entry)
            (entry_key self.entry) refused.cause) }
        ensures succeeds { NeedsNoMemory K.number_of (entry_map self.entry).walk
            (entry_map self.entry).capacity (entry_map self.entry).factor (entry_key self.entry)
            → IsOk result }
        ensures has_room { HasRoom K.number_of (entry_map self.entry) 1 → IsOk result }
    {
        let alloc = self.allocator();
        self.or_insert_with(|| V::made_with(alloc))
    }

    /// The allocator of the map.
    fn allocator(&self) -> A {
        match self {
            Entry::Occupied(entry) => entry.map.allocator(),
            Entry::Vacant(entry) => entry.map.allocator(),
        }
    }

    /// A mutable reference to the value of the key, for a value that may fail to be made.
    ///
    /// If the key is present, the closure isn't called, and the call never fails. If the key is
    /// absent, the closure is called once, before any memory is allocated. If it returns an error,
    /// the call returns that error as it is. If it returns a value, that value is inserted first.
    /// If this insertion fails, it fails as
    /// [`VacantEntry::insert`](crate::entry::VacantEntry::insert) does. The call then returns the
    /// error that `From` makes of the failure, which holds the value. A failed call leaves the map
    /// as it was. The closure must be callable if the key is absent.
    ///
    /// ```text
    /// let mut map: IntMap<u64, u64> = IntMap::new(alloc)?;
    /// map.entry(21).or_try_insert_with(|| key_of("7").ok_or(Cause::Memory))      // Ok(7)
    /// map.entry(22).or_try_insert_with(|| key_of("seven").ok_or(Cause::Memory))  // Err(Memory)
    /// map                                                                        // {21: 7}
    /// ```
    #[inline]
    pub fn or_try_insert_with<E: From<Refused<V>>, F: FnOnce() -> Result<V, E>>(
        self,
        f: F,
    ) -> Result<&'a mut V, E>
        requires { entry_value self ≡ None → F.pre f }

        // what is returned and left
        ensures* writes_back { sem 𝓛 (entry_lends_ok K.row V.row A.row A.Allocator
            self.entry result) }
        ensures value { IfOk result
            (λ r. UnwrapsOrElse (entry_value self.entry) (λ v. F.post f (Ok v)) r.now) }
        ensures inserted { OnOk result ((v : V) → IsInsertion K.number_of K.is_valid
            (entry_map self.entry) (entry_key self.entry) v (map_with_value self.entry v)) }

        // what is returned if no value is inserted
        ensures absent { OnErr result (entry_value self.entry ≡ None) }
        ensures err { IfErr result (λ e. F.post f (Err e) ⊎ IsMadeRefusal (F.post f) E.from_gives
            (RefusalIsDue K.number_of (entry_list self.entry) (entry_key self.entry)) e) }
        ensures succeeds { NeedsNoMemory K.number_of (entry_map self.entry).walk
            (entry_map self.entry).capacity (entry_map self.entry).factor (entry_key self.entry)
            → IfErr result (λ e. F.post f (Err e)) }
        ensures has_room { HasRoom K.number_of (entry_map self.entry) 1
            → IfErr result (λ e. F.post f (Err e)) }
    {
        match self {
            Entry::Occupied(entry) => Ok(entry.into_mut()),
            Entry::Vacant(entry) => {
                let made = f();
                entry.insert_made(made)
            }
        }
    }

    /// Sets the value of the key, and returns its entry. If the key is present, its value is
    /// replaced in place, the old value is dropped, and the call never fails. If the key is absent,
    /// the pair is inserted, and this fails as [`VacantEntry::insert`] does.
    ///
    /// ```text
    /// let mut map = IntMap::from_array(alloc, [(21, 'a')])?;
    /// map.entry(21).insert_entry('c')?.remove_entry()    // (21, 'c')
    /// ```
    pub fn insert_entry(self, value: V) -> Result<OccupiedEntry<'a, K, V, A>, Refused<V>>
        // what is returned and left
        ensures written { IfOk result (λ entry. IsWritten self.entry value (Occupied entry)) }
        ensures inserted { IfOk result (λ entry. IsInsertion K.number_of K.is_valid
            (entry_map self.entry) (entry_key self.entry) value (entry_map (Occupied entry))) }

        // what a failure returns and leaves
        ensures* err { sem 𝓛 (entry_rests K.row V.row A.row A.Allocator self.entry result) }
        ensures value_returned { IfErr result (λ refused. refused.value ≡ value) }

        // when it fails
        ensures absent { OnErr result (entry_value self.entry ≡ None) }
        ensures refused { IfErr result (λ refused. RefusalIsDue K.number_of (entry_list self.entry)
            (entry_key self.entry) refused.cause) }
        ensures succeeds { NeedsNoMemory K.number_of (entry_map self.entry).walk
            (entry_map self.entry).capacity (entry_map self.entry).factor (entry_key self.entry)
            → IsOk result }
        ensures has_room { HasRoom K.number_of (entry_map self.entry) 1 → IsOk result }
    {
        match self {
            Entry::Occupied(entry) => {
                // taken apart before the write, so that the proof follows the map into the result
                let OccupiedEntry { map, slot, place } = entry;
                *map.value_mut_in(slot, place) = value;
                Ok(OccupiedEntry { map, slot, place })
            }
            Entry::Vacant(entry) => entry.insert_entry(value),
        }
    }
}

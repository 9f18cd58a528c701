//! Entries of absent keys.
ghost use Rattle.std.specs.Prelude.{◌≡◌, None, IfOk, IfErr, OnOk, IsOk};
ghost use Rattle.std.specs.Borrow.{sem};
ghost use Rattle.intmap.specs.Entries.{Vacant, entry_reference, entry_map, entry_key, entry_value, entry_list, map_with_value, entry_lends_ok};
ghost use Rattle.intmap.specs.Insertions.{IsInsertion};
ghost use Rattle.intmap.specs.Map.{NeedsNoMemory};
ghost use Rattle.intmap.specs.PlainLists.{RefusalIsDue};
ghost use Rattle.intmap.specs.Room.{HasRoom};

use crate::entry::VacantEntry;
use crate::map::IntMap;
use crate::refusal::Refused;
use intmap_table::IntKey;
use intmap_table::table::stored::Sought;
use std::alloc::Allocator;

impl<'a, K: IntKey, V, A: Allocator + Copy> VacantEntry<'a, K, V, A> {
    /// The key.
    pub fn key(&self) -> &K
        ensures value { result.now ≡ entry_key (Vacant self.now) }
    {
        &self.key
    }

    /// The key that was looked up. This ends the entry and leaves the map with the key still
    /// absent.
    ///
    /// ```text
    /// let mut map = IntMap::from_array(alloc, [(21, 'b')])?;
    /// if let Entry::Vacant(entry) = map.entry(22) {
    ///     entry.into_key()    // 22
    /// }
    /// ```
    pub fn into_key(self) -> K
        ensures value { result ≡ entry_key (Vacant self.entry) }
        ensures state { self.exit.0.now ≡ entry_map (Vacant self.entry) }
    {
        let VacantEntry { key, .. } = self;
        key
    }

    /// The map, with the key still absent, for as long as the map was borrowed. It compares no key.
    pub fn into_map(self) -> &'a mut IntMap<K, V, A>
        ensures same_reference { result.ghost_name
            ≡ (entry_reference (Vacant self.entry)).ghost_name }
        ensures state { result.now ≡ entry_map (Vacant self.entry) }
    {
        let VacantEntry {
            map,
            key: _,
            slot: _,
        } = self;
        map
    }
}

impl<'a, K: IntKey, V: Drop, A: Allocator + Copy> VacantEntry<'a, K, V, A> {
    /// Inserts the pair of the key and the value at the end of its slot, and returns a mutable
    /// reference to the value. It grows the table and fails as
    /// [`IntMap::insert`](crate::IntMap::insert) of a new key does. A failed call returns the value
    /// and leaves the map as it was.
    #[inline]
    pub fn insert(self, value: V) -> Result<&'a mut V, Refused<V>>
        // what is returned and left
        ensures* writes_back { sem 𝓛 (entry_lends_ok K.row V.row A.row A.Allocator
            (Vacant self.entry) result) }
        ensures value { IfOk result (λ r. r.now ≡ value) }
        ensures absent { entry_value (Vacant self.entry) ≡ None }
        ensures inserted { OnOk result ((v : V) → IsInsertion K.number_of K.is_valid
            (entry_map (Vacant self.entry)) (entry_key (Vacant self.entry)) v
            (map_with_value (Vacant self.entry) v)) }

        // what a failure returns
        ensures value_returned { IfErr result (λ refused. refused.value ≡ value) }

        // when it fails
        ensures refused { IfErr result (λ refused. RefusalIsDue K.number_of
            (entry_list (Vacant self.entry)) (entry_key (Vacant self.entry)) refused.cause) }
        ensures succeeds { NeedsNoMemory K.number_of (entry_map (Vacant self.entry)).walk
            (entry_map (Vacant self.entry)).capacity (entry_map (Vacant self.entry)).factor
            (entry_key (Vacant self.entry)) → IsOk result }
        ensures has_room { HasRoom K.number_of (entry_map (Vacant self.entry)) 1 → IsOk result }
    {
        let VacantEntry { map, key, slot } = self;
        let at = match map.add(slot, Sought::new(key), value) {
            Ok(at) => at,
            Err(refused) => return Err(refused),
        };
        Ok(map.value_mut_in(at.slot, at.place))
    }
}

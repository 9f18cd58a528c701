//! The map: a table of slots, the number of its pairs and its load factor. This file has its length
//! and its capacity, the search for a key, and the calls on a pair that a search located. These
//! calls compare no key.
ghost use Rattle.std.specs.Prelude.{◌≡◌, ◌==◌, length, is_some, is_ok, IfOk, IfErr, OnErr, Some, None};
ghost use Rattle.std.specs.Option.{option_and_then};
ghost use Rattle.intmap.specs.Map.{IsMap, after_search, with_pair, without_key};
ghost use Rattle.intmap_table.specs.Bindings.{value_of};
ghost use Rattle.intmap_table.specs.Classes.{slot_number};
ghost use Rattle.intmap_table.specs.HandingOver.{HandsOver};
ghost use Rattle.intmap_table.specs.Locations.{IsAt, IsFound, key_at};
ghost use Rattle.intmap_table.specs.Walk.{slot_of};

mod build;
mod figures;
mod get;
mod grow;
mod insert;
pub mod iter;
pub(crate) mod json;
mod remove;
mod traits;

use intmap_table::IntKey;
use intmap_table::kept::Kept;
use intmap_table::steps::Steps;
use intmap_table::table::Table;
use intmap_table::table::locate::Location;
use intmap_table::table::stored::Sought;
use std::alloc::{Allocator, Global};
use std::marker::Model;

/// A hash map from integer keys to values.
///
/// Its pairs lie in slots, whose number is a power of two. A key's slot is its number times an odd
/// constant, modulo the number of slots: two keys share a slot if and only if their numbers are
/// equal modulo the number of slots. Iteration goes through the slots in turn, and through each
/// from front to back. The list of the pairs in this order is the walk. It depends on the calls
/// alone: there is no random seed. No call makes the number of slots smaller.
///
/// Contracts see a map as a [`MapState`](../specs/Map.antt): its walk, its number of slots, its
/// load factor in thousandths, two counts, and for how many pairs behind the first ones of their
/// slots there surely is memory. One counts the pairs that insertions put into larger tables, the
/// other the keys that calls by `&mut` compared, except steps of
/// [`get_disjoint_mut`](IntMap::get_disjoint_mut). Only contracts see these three numbers: they
/// take no memory.
#[derive(Drop)]
pub struct IntMap<K: IntKey, V, A: Allocator + Copy = Global> {
    table: Table<K, Kept<V>, A>,
    len: usize,
    threshold: usize,
    factor: usize,
    placed: Steps,
    compared: Steps,
    reserved: Steps,
}

// Invariant: the walk is that of a map, the length and the threshold are those of its pairs, slots
// and load factor, and no more is reserved than there is memory for.
impl<K: IntKey, V, A: Allocator + Copy> Model for IntMap<K, V, A> {
    ghost use Rattle.intmap.specs.Map.{MapState};
    ghost use Rattle.intmap.specs.Consistency.{IsConsistent};

    ghost Value = { MapState K V };

    ghost view = { λ m. record {
      walk = m.table.walk;
      capacity = m.table.capacity;
      factor = m.factor;
      placed = m.placed;
      compared = m.compared;
      reserved = m.reserved;
    } };

    ghost invariant = { λ m. IsConsistent K.number_of K.is_valid m.table.walk m.table.capacity
        m.factor m.len m.threshold m.reserved m.table.nodes };
}

impl<K: IntKey, V, A: Allocator + Copy> IntMap<K, V, A> {
    /// The number of pairs. It never fails.
    pub fn len(&self) -> usize
        ensures value { result ≡ length self.now.walk }
        ensures valid { IsMap K.number_of K.is_valid self.now }
    {
        self.len
    }

    /// Whether there is no pair. It never fails.
    pub fn is_empty(&self) -> bool
        ensures value { result ≡ (length self.now.walk == 0) }
        ensures valid { IsMap K.number_of K.is_valid self.now }
    {
        self.len == 0
    }

    /// The number of slots, a power of two from 2 to 2^63. It never fails.
    pub fn capacity(&self) -> usize
        ensures value { result ≡ self.now.capacity }
        ensures valid { IsMap K.number_of K.is_valid self.now }
    {
        self.table.capacity()
    }

    /// Does nothing. Its contract says what holds of every map. A function calls it if it makes no
    /// other call whose contract says so.
    #[inline(always)]
    pub(crate) fn known(&self)
        ensures valid { IsMap K.number_of K.is_valid self.now }
    {
        let _ = &self.table;
    }
}

impl<K: IntKey, V, A: Allocator + Copy> IntMap<K, V, A> {
    ghost use Rattle.std.specs.Borrow.{sem};
    ghost use Rattle.intmap.specs.Lending.{map_lends_in};

    /// Where the pair of the key is, or the slot of the key if the key is absent. The map counts
    /// the comparisons.
    #[inline(always)]
    pub(crate) fn locate(&mut self, key: &Sought<K>) -> Result<Location<K>, usize>
        ensures found { IfOk result (λ at. (at.key ≡ key.now)
            × IsAt K.number_of self.new.walk self.new.capacity at) }
        ensures key { IfOk result (λ at. key_at (slot_of K.number_of self.new.walk
            self.new.capacity at.slot) at.place ≡ Some key.now) }
        ensures missing { OnErr result (value_of K.number_of self.old.walk key.now ≡ None) }
        ensures slot { IfErr result (λ slot. slot
            ≡ slot_number K.number_of key.now self.new.capacity) }
        ensures bound { is_ok result ≡ is_some (value_of K.number_of self.old.walk key.now) }
        ensures state { self.new ≡ after_search K.number_of self.old key.now }
        ensures known { K.is_valid key.now }
        ensures valid { IsMap K.number_of K.is_valid self.old }
    {
        self.table.locate(key, &mut self.compared)
    }

    /// The key of the pair at a place of a slot.
    #[inline(always)]
    pub(crate) fn key_at(&self, slot: usize, place: usize) -> &K
        requires { IsFound K.number_of self.now.walk self.now.capacity slot place }
        ensures { Some result.now
            ≡ key_at (slot_of K.number_of self.now.walk self.now.capacity slot) place }
    {
        self.table.key_at(slot, place)
    }

    /// Where the pair at a place of a slot is, with its key.
    #[inline(always)]
    pub(crate) fn location(&self, slot: usize, place: usize) -> Location<K>
        requires { IsFound K.number_of self.now.walk self.now.capacity slot place }
        ensures key { Some result.key
            ≡ key_at (slot_of K.number_of self.now.walk self.now.capacity slot) place }
        ensures at { IsAt K.number_of self.now.walk self.now.capacity result }
    {
        let key = *self.key_at(slot, place);
        Location { key, slot, place }
    }

    /// The value of the pair at a place of a slot.
    #[inline(always)]
    pub(crate) fn value_in(&self, slot: usize, place: usize) -> &V
        requires { IsFound K.number_of self.now.walk self.now.capacity slot place }
        ensures value { option_and_then (value_of K.number_of self.now.walk)
            (key_at (slot_of K.number_of self.now.walk self.now.capacity slot) place)
            ≡ Some result.now }
    {
        self.table.value_in(slot, place).get()
    }

    /// A mutable reference to the value of the pair at a place of a slot.
    #[inline(always)]
    pub(crate) fn value_mut_in(&mut self, slot: usize, place: usize) -> &mut V
        requires { IsFound K.number_of self.old.walk self.old.capacity slot place }
        ensures* writes_back { sem 𝓛 (map_lends_in K.row V.row A.row K.IntKey.own K.PartialEq
            A.Allocator self.entry slot place result) }
        ensures value { option_and_then (value_of K.number_of self.old.walk)
            (key_at (slot_of K.number_of self.old.walk self.old.capacity slot) place)
            ≡ Some result.now }
        ensures valid { IsMap K.number_of K.is_valid self.old }
    {
        self.table.value_mut_in(slot, place).get_mut()
    }

    /// Removes a located pair, and returns its value. The last pair of its slot takes its place.
    #[inline(always)]
    pub(crate) fn take_at(&mut self, at: Location<K>) -> V
        requires { IsAt K.number_of self.old.walk self.old.capacity at }
        ensures value { value_of K.number_of self.old.walk at.key ≡ Some result }
        ensures state { self.new ≡ without_key K.number_of self.old at.key }
        ensures valid { IsMap K.number_of K.is_valid self.old }
        ensures valid_after { IsMap K.number_of K.is_valid self.new }
    {
        let kept = self.table.take_at(at);
        self.len -= 1;
        kept.into_value()
    }

    /// Removes a located pair and hands its value to the closure. If the closure returns an error,
    /// the pair of the key and the value in it is put at the end of the slot. It allocates nothing.
    /// While the closure runs, the map is one without the pair.
    pub(crate) fn hand_over_at<R, F: FnOnce(V) -> Result<R, V>>(
        &mut self,
        at: Location<K>,
        f: F,
    ) -> Option<R>
        requires at { IsAt K.number_of self.old.walk self.old.capacity at }
        requires callable { (value : V)
            → value_of K.number_of self.old.walk at.key ≡ Some value → F.pre f value }
        ensures state { (value : V) × (value_of K.number_of self.old.walk at.key ≡ Some value)
            × HandsOver (F.post f value) result (self.new ≡ without_key K.number_of self.old at.key)
            (λ back. self.new ≡ with_pair K.number_of self.old at.key back self.old.capacity) }
        ensures valid { IsMap K.number_of K.is_valid self.old }
        ensures valid_after { IsMap K.number_of K.is_valid self.new }
    {
        let len = self.len;
        // before the closure runs, so that the number of pairs is right meanwhile
        self.len = len - 1;
        match self.table.hand_over(at, f) {
            Some(handed) => Some(handed),
            None => {
                self.len = len;
                None
            }
        }
    }
}

//! Searches for the pair of a key, and calls on a pair whose place is known, which compare no key.
ghost use Rattle.std.specs.Prelude.{◌≡◌, ◌+◌, ◌≤◌, IfOk, IfErr, IfNone, IfSome, OnErr, Some, None};
ghost use Rattle.std.specs.Option.{option_and_then, option_map};
ghost use Rattle.intmap_table.specs.Classes.{slot_number};
ghost use Rattle.intmap_table.specs.Bindings.{HasDistinctKeys, value_of, take_key, put_pair};
ghost use Rattle.intmap_table.specs.HandingOver.{HandsOver};
ghost use Rattle.intmap_table.specs.Locations.{IsAt, IsFound, key_at};
ghost use Rattle.intmap_table.specs.Reach.{reach};
ghost use Rattle.intmap_table.specs.Walk.{walk_of, slot_of};

use crate::kept::Kept;
use crate::key::IntKey;
use crate::steps::Steps;
use crate::table::Table;
use crate::table::closure_calls::hand_value;
use crate::table::stored::{Sought, Stored};
use std::alloc::Allocator;

/// Where the pair of a key is: its slot, and its place there from the front.
#[derive(Clone, Copy)]
pub struct Location<K> {
    pub key: K,
    pub slot: usize,
    pub place: usize,
}

impl<K: IntKey, X, A: Allocator> Table<K, X, A> {
    ghost use Rattle.std.specs.Borrow.{sem};
    ghost use Rattle.intmap_table.specs.Lending.{table_lends_in};

    /// Where the pair of the key is, or the slot of the key if the key is absent. The keys of the
    /// slot are compared from the front, up to the one sought. Each comparison is one step.
    #[inline(always)]
    pub fn locate(&self, key: &Sought<K>, steps: &mut Steps) -> Result<Location<K>, usize>
        ensures found { IfOk result (λ at. (at.key ≡ key.now)
            × IsAt K.number_of self.now.walk self.now.capacity at) }
        ensures missing { OnErr result (value_of K.number_of self.now.walk key.now ≡ None) }
        ensures slot { IfErr result (λ slot. slot
            ≡ slot_number K.number_of key.now self.now.capacity) }
        ensures counted { steps.new
            ≡ steps.old + reach K.number_of self.now.walk self.now.capacity key.now }
        ensures known { K.is_valid key.now }
    {
        let slot = self.index_of(key);
        let Some(place) = self.slots.find(slot, key, steps) else {
            return Err(slot);
        };
        Ok(Location {
            key: key.key(),
            slot,
            place,
        })
    }

    /// The pair of the key, or `None` if the key is absent. The keys are compared as by
    /// [`locate`](Table::locate).
    #[inline(always)]
    pub fn pair_of(&self, key: K, steps: &mut Steps) -> Option<(&K, &X)>
        ensures key { IfSome result (λ pair. pair.0.now ≡ key) }
        ensures value { option_map (λ pair. pair.1.now) result
            ≡ value_of K.number_of self.now.walk key }
        ensures counted { steps.new
            ≡ steps.old + reach K.number_of self.now.walk self.now.capacity key }
        ensures known { K.is_valid key }
    {
        let key = Sought::new(key);
        let slot = self.index_of(&key);
        let Some(pair) = self.slots.pair_of(slot, &key, steps) else {
            return None;
        };
        Some((pair.0.key(), &pair.1))
    }

    /// The key of the pair at a place of a slot.
    #[inline(always)]
    pub fn key_at(&self, slot: usize, place: usize) -> &K
        requires { IsFound K.number_of self.now.walk self.now.capacity slot place }
        ensures { Some result.now
            ≡ key_at (slot_of K.number_of self.now.walk self.now.capacity slot) place }
    {
        self.slots.key_at(slot, place).key()
    }

    /// The value of the pair at a place of a slot.
    #[inline(always)]
    pub fn value_in(&self, slot: usize, place: usize) -> &X
        requires { IsFound K.number_of self.now.walk self.now.capacity slot place }
        ensures { option_and_then (value_of K.number_of self.now.walk)
            (key_at (slot_of K.number_of self.now.walk self.now.capacity slot) place)
            ≡ Some result.now }
    {
        self.slots.value_at(slot, place)
    }

    /// A mutable reference to the value of the pair at a place of a slot.
    #[inline(always)]
    pub fn value_mut_in(&mut self, slot: usize, place: usize) -> &mut X
        requires found { IsFound K.number_of self.old.walk self.old.capacity slot place }
        requires once { HasDistinctKeys K.number_of self.old.walk }
        ensures* writes_back { sem 𝓛 (table_lends_in K.row X.row A.row K.IntKey.own K.PartialEq
            A.Allocator self.entry slot place result) }
        ensures value { option_and_then (value_of K.number_of self.old.walk)
            (key_at (slot_of K.number_of self.old.walk self.old.capacity slot) place)
            ≡ Some result.now }
    {
        self.slots.value_mut_at(slot, place)
    }

    /// Removes a located pair, and returns its value. The last pair of its slot moves into its
    /// place.
    #[inline(always)]
    pub fn take_at(&mut self, at: Location<K>) -> X
        requires { IsAt K.number_of self.old.walk self.old.capacity at }
        ensures value { value_of K.number_of self.old.walk at.key ≡ Some result }
        ensures walk { self.new.walk ≡ walk_of K.number_of
            (take_key K.number_of self.old.walk self.old.capacity at.key) self.old.capacity }
        ensures capacity { self.new.capacity ≡ self.old.capacity }
        ensures nodes { self.new.nodes ≡ self.old.nodes }
    {
        let (_, value) = self.slots.take_at(at.slot, at.place);
        value
    }

    /// Removes the pair of the key and returns its value, or `None` if the key is absent. The last
    /// pair of its slot moves into its place. The keys of the slot are compared from the front, up
    /// to the one sought. Each comparison is one step.
    #[inline(always)]
    pub fn remove(&mut self, key: K, steps: &mut Steps) -> Option<X>
        ensures value { result ≡ value_of K.number_of self.old.walk key }
        ensures walk { self.new.walk ≡ walk_of K.number_of
            (take_key K.number_of self.old.walk self.old.capacity key) self.old.capacity }
        ensures capacity { self.new.capacity ≡ self.old.capacity }
        ensures nodes { self.new.nodes ≡ self.old.nodes }
        ensures counted { steps.new
            ≡ steps.old + reach K.number_of self.old.walk self.old.capacity key }
        ensures known { K.is_valid key }
    {
        let key = Sought::new(key);
        let slot = self.index_of(&key);
        self.slots.remove(slot, key, steps)
    }
}

impl<K: IntKey, V, A: Allocator> Table<K, Kept<V>, A> {
    ghost use Rattle.std.specs.Borrow.{sem};
    ghost use Rattle.std.specs.Option.{option_copied_mut};
    ghost use Rattle.intmap_table.specs.Lending.{table_lends_present};

    /// A mutable reference to the value of the key, or `None` if the key is absent. The keys are
    /// compared as by [`locate`](Table::locate).
    #[inline(always)]
    pub fn value_mut_of(&mut self, key: K, steps: &mut Steps) -> Option<&mut V>
        requires once { HasDistinctKeys K.number_of self.old.walk }
        ensures* writes_back { sem 𝓛 (table_lends_present K.row V.row A.row K.IntKey.own K.PartialEq
            A.Allocator self.entry key result) }
        ensures value { option_copied_mut result ≡ value_of K.number_of self.old.walk key }
        ensures counted { steps.new
            ≡ steps.old + reach K.number_of self.old.walk self.old.capacity key }
    {
        let key = Sought::new(key);
        let slot = self.index_of(&key);
        self.slots.value_mut_of(slot, &key, steps)
    }

    /// Removes a located pair, as `take_at` does, hands its value to the closure, and returns what
    /// the closure made of the value. If the closure returns an error, the pair of the key and the
    /// value in this error is put at the end of the slot, and the call returns `None`. It allocates
    /// nothing. While the closure runs, the pair is in no slot.
    pub fn hand_over<R, F: FnOnce(V) -> Result<R, V>>(&mut self, at: Location<K>, f: F) -> Option<R>
        requires at { IsAt K.number_of self.old.walk self.old.capacity at }
        requires callable { (value : V)
            → value_of K.number_of self.old.walk at.key ≡ Some value → F.pre f value }
        ensures handed { (value : V) × (value_of K.number_of self.old.walk at.key ≡ Some value)
            × HandsOver (F.post f value) result
            (self.new.walk ≡ walk_of K.number_of
            (take_key K.number_of self.old.walk self.old.capacity at.key) self.old.capacity)
            (λ back. self.new.walk ≡ walk_of K.number_of
            (put_pair K.number_of self.old.walk self.old.capacity at.key back) self.old.capacity) }
        ensures capacity { self.new.capacity ≡ self.old.capacity }
        ensures nodes { self.old.nodes ≤ self.new.nodes }
        ensures key { IfNone result (K.is_valid at.key) }
    {
        let (_, kept) = self.slots.take_at(at.slot, at.place);
        match hand_value(kept, f) {
            Ok(handed) => Some(handed),
            Err(back) => {
                self.slots
                    .put_back(at.slot, (Stored::new(Sought::new(at.key)), back));
                None
            }
        }
    }
}

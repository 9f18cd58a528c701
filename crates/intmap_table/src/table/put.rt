//! A pair is put into the slot of its key. What lies at the first place is looked at before the
//! rest.
ghost use Rattle.std.specs.Prelude.{◌≡◌, ◌+◌, ◌<◌, ◌≤◌, true, false, [], is_none, length, MatchBool, IfOk, IfErr, IsOk, OnErr, OnOk, None, Some};
ghost use Rattle.intmap_table.specs.Bindings.{value_of, put_pair};
ghost use Rattle.intmap_table.specs.Classes.{slot_number};
ghost use Rattle.intmap_table.specs.Firsts.{first_of, reach_behind, IsFirst};
ghost use Rattle.intmap_table.specs.Figures.{load_of};
ghost use Rattle.intmap_table.specs.Reach.{class_size};
ghost use Rattle.intmap_table.specs.Walk.{slot_of, walk_of};

use crate::key::IntKey;
use crate::steps::Steps;
use crate::table::Table;
use crate::table::stored::{Sought, Stored};
use std::alloc::Allocator;

impl<K: IntKey, X, A: Allocator> Table<K, X, A> {
    /// The slot of the key.
    #[inline(always)]
    pub fn slot_of(&self, key: &Sought<K>) -> usize
        ensures slot { result ≡ slot_number K.number_of key.now self.now.capacity }
        ensures within { result < self.now.capacity }
        ensures known { K.is_valid key.now }
    {
        self.index_of(key)
    }

    /// Whether a slot holds no pair.
    #[inline(always)]
    pub fn is_vacant(&self, slot: usize) -> bool
        requires { slot < self.now.capacity }
        ensures { MatchBool result (slot_of K.number_of self.now.walk self.now.capacity slot ≡ [])
            (0 < length (slot_of K.number_of self.now.walk self.now.capacity slot)) }
    {
        self.slots.is_vacant(slot)
    }

    /// Puts the pair of a key into its slot, which holds none. It allocates nothing.
    #[inline(always)]
    pub fn fill(&mut self, slot: usize, key: Sought<K>, value: X)
        requires slot { slot ≡ slot_number K.number_of key self.old.capacity }
        requires empty { slot_of K.number_of self.old.walk self.old.capacity slot ≡ [] }
        ensures walk { self.new.walk ≡ walk_of K.number_of
            (put_pair K.number_of self.old.walk self.old.capacity key value) self.old.capacity }
        ensures nodes { self.new.nodes ≡ self.old.nodes }
        ensures capacity { self.new.capacity ≡ self.old.capacity }
        ensures first { IsFirst K.number_of self.new.walk self.new.capacity slot key }
        ensures missing { value_of K.number_of self.old.walk key ≡ None }
        ensures known { K.is_valid key }
    {
        self.slots.fill(slot, (Stored::new(key), value));
    }

    /// Whether the first pair of the key's slot has the key. If there is a first pair, its key is
    /// compared, which is one step.
    #[inline(always)]
    pub fn first_is(&self, slot: usize, key: &Sought<K>, steps: &mut Steps) -> bool
        requires { slot ≡ slot_number K.number_of key.now self.now.capacity }
        ensures value { MatchBool result
            (IsFirst K.number_of self.now.walk self.now.capacity slot key.now)
            (value_of K.number_of (first_of K.number_of self.now.walk self.now.capacity slot)
            key.now ≡ None) }
        ensures counted { steps.new ≡ steps.old
            + length (first_of K.number_of self.now.walk self.now.capacity slot) }
    {
        self.slots.first_is(slot, key, steps)
    }

    /// Removes the pair of a key, which is the first one of its slot. The last pair of the slot
    /// takes its place, and the pair of the key and this value is put last. It returns the old
    /// value, and allocates nothing.
    #[inline(always)]
    pub fn replace_first(&mut self, slot: usize, key: Sought<K>, value: X) -> X
        requires { IsFirst K.number_of self.old.walk self.old.capacity slot key }
        ensures value { value_of K.number_of self.old.walk key ≡ Some result }
        ensures walk { self.new.walk ≡ walk_of K.number_of
            (put_pair K.number_of self.old.walk self.old.capacity key value) self.old.capacity }
        ensures nodes { self.new.nodes ≡ self.old.nodes }
        ensures capacity { self.new.capacity ≡ self.old.capacity }
        ensures known { K.is_valid key }
    {
        let (_, old) = self.slots.replace_first(slot, (Stored::new(key), value));
        old
    }

    /// Puts the pair of a key and a value last in its slot, whose first pair, if there is one, has
    /// another key. If the key is present, the last pair of the slot takes the place of the old
    /// pair, and the old value is returned. An absent key is added only if `adds` is true. If it
    /// isn't added, or if an allocation fails, the value is returned and nothing changes. It
    /// compares keys from the second pair on, up to the one sought.
    #[inline(always)]
    pub fn put(
        &mut self,
        slot: usize,
        key: Sought<K>,
        value: X,
        adds: bool,
        steps: &mut Steps,
    ) -> Result<Option<X>, X>
        requires slot { slot ≡ slot_number K.number_of key self.old.capacity }
        requires some { adds ≡ true
            → 0 < length (slot_of K.number_of self.old.walk self.old.capacity slot) }
        requires other { value_of K.number_of
            (first_of K.number_of self.old.walk self.old.capacity slot) key ≡ None }
        ensures value { IfOk result (λ old. old ≡ value_of K.number_of self.old.walk key) }
        ensures walk { OnOk result (self.new.walk ≡ walk_of K.number_of
            (put_pair K.number_of self.old.walk self.old.capacity key value) self.old.capacity) }
        ensures nodes { self.old.nodes ≤ self.new.nodes }
        ensures capacity { self.new.capacity ≡ self.old.capacity }
        ensures known { OnOk result (K.is_valid key) }
        ensures adds { IfOk result (λ old. old ≡ None → adds ≡ true) }
        ensures missing { OnErr result (value_of K.number_of self.old.walk key ≡ None) }
        ensures err { OnErr result (self.new ≡ self.old) }
        ensures value_returned { IfErr result (λ returned. returned ≡ value) }
        ensures memory { OnErr result
            (adds ≡ true → 0 < class_size K.number_of self.old.walk self.old.capacity key) }
        ensures succeeds { adds ≡ true → length self.old.walk
            < load_of K.number_of self.old.walk self.old.capacity + self.old.nodes → IsOk result }
        ensures counted { steps.new ≡ steps.old
            + reach_behind K.number_of self.old.walk self.old.capacity slot key }
    {
        let old = self.slots.put(slot, key, value, adds, steps)?;
        Ok(old)
    }

    /// Puts the pair of a key and a value last in its slot, whose first pair, if there is one, has
    /// another key. If the key is present, nothing changes, and the value is dropped. An absent key
    /// is added only if `adds` is true. It returns whether the key was added. If it is absent and
    /// isn't added, or if an allocation fails, the value is returned and nothing changes. It
    /// compares keys from the second pair on, up to the one sought.
    #[inline(always)]
    pub fn add_checked(
        &mut self,
        slot: usize,
        key: Sought<K>,
        value: X,
        adds: bool,
        steps: &mut Steps,
    ) -> Result<bool, X>
    where
        X: Drop,
        requires slot { slot ≡ slot_number K.number_of key self.old.capacity }
        requires some { adds ≡ true
            → 0 < length (slot_of K.number_of self.old.walk self.old.capacity slot) }
        requires other { value_of K.number_of
            (first_of K.number_of self.old.walk self.old.capacity slot) key ≡ None }
        ensures new { IfOk result
            (λ new. new ≡ is_none (value_of K.number_of self.old.walk key)) }
        ensures walk { IfOk result (λ new. new ≡ true → self.new.walk ≡ walk_of K.number_of
            (put_pair K.number_of self.old.walk self.old.capacity key value) self.old.capacity) }
        ensures present { IfOk result (λ new. new ≡ false → self.new ≡ self.old) }
        ensures nodes { self.old.nodes ≤ self.new.nodes }
        ensures capacity { self.new.capacity ≡ self.old.capacity }
        ensures known { IfOk result (λ new. new ≡ true → K.is_valid key) }
        ensures adds { IfOk result (λ new. new ≡ true → adds ≡ true) }
        ensures missing { OnErr result (value_of K.number_of self.old.walk key ≡ None) }
        ensures err { OnErr result (self.new ≡ self.old) }
        ensures value_returned { IfErr result (λ returned. returned ≡ value) }
        ensures memory { OnErr result
            (adds ≡ true → 0 < class_size K.number_of self.old.walk self.old.capacity key) }
        ensures succeeds { adds ≡ true → length self.old.walk
            < load_of K.number_of self.old.walk self.old.capacity + self.old.nodes → IsOk result }
        ensures counted { steps.new ≡ steps.old
            + reach_behind K.number_of self.old.walk self.old.capacity slot key }
    {
        let new = self.slots.add_checked(slot, key, value, adds, steps)?;
        Ok(new)
    }
}

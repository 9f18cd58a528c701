//! Single pairs are put into a slot, replaced and removed.
ghost use Rattle.std.specs.Prelude.{◌≡◌, ◌+◌, ◌<◌, ◌≤◌, ℕ, [], ◌∷◌, ◌++◌, List, drop, is_none, length, position, set, swap_remove, take, slice_index_or, slice_set, cond, false, true, None, Some, MatchBool, IfOk, IfErr, IfNone, IfSome, IsOk, OnErr, OnOk};
ghost use Rattle.intmap_table.specs.Bindings.{swap_out, value_of};
ghost use Rattle.intmap_table.specs.Classes.{same_key, slot_number};
ghost use Rattle.intmap_table.specs.Reach.{through_first};
ghost use Rattle.intmap_table.specs.Tables.Nodes.{Held, empty, further};
ghost use Rattle.intmap_table.specs.Tables.Putting.{put_last};
ghost use Rattle.intmap_table.specs.Tables.Rows.{row_at};

use crate::bits::Bits;
use crate::key::IntKey;
use crate::linked::node::{NODE_LIMIT, NOWHERE, Node};
use crate::linked::row::{self, insertion, removal};
use crate::steps::Steps;
use crate::table::slots::Slots;
use crate::table::stored::{Sought, Stored};
use std::alloc::Allocator;

/// Clears the bit of a slot if it holds no pair.
#[inline(always)]
pub(super) fn unmark_if<A: Allocator>(bits: &mut Bits<A>, is_empty: bool, index: usize)
    requires { index < length bits.old }
    ensures { bits.new ≡ cond is_empty (slice_set bits.old index false) bits.old }
{
    if is_empty {
        bits.clear(index);
    }
}

/// Removes the only pair of a slot, and clears the bit of the slot.
#[inline(always)]
fn take_only<P, A: Allocator>(slot: &mut Node<P>, bits: &mut Bits<A>, index: usize) -> P
    requires filled { (l : ℕ) × (p : P) × (slot.old ≡ Held l p) }
    requires within { index < length bits.old }
    ensures pair { (l : ℕ) × (slot.old ≡ Held l result) }
    ensures slot { slot.new ≡ empty }
    ensures bits { bits.new ≡ slice_set bits.old index false }
{
    // read before the slot is written, so that the write can't delay it
    let word = bits.word(index);
    let (_, pair) = slot.take();
    bits.clear_in(word, index);
    pair
}

impl<K: IntKey, X, A: Allocator> Slots<K, X, A> {
    /// Puts a pair last in its slot, and returns its place. If an allocation fails, it returns the
    /// pair, and nothing changes. A slot without a pair needs no allocation.
    #[inline(always)]
    pub(crate) fn push(
        &mut self,
        index: usize,
        pair: (Stored<K>, X),
    ) -> Result<usize, (Stored<K>, X)>
        requires within { index < length self.old.rows }
        requires own { slot_number K.number_of pair.0 (length self.old.rows) ≡ index }
        ensures place { IfOk result (λ place. place ≡ length (row_at self.old index)) }
        ensures ok { OnOk result
            (self.new.rows ≡ set self.old.rows index (row_at self.old index ++ pair ∷ [])) }
        ensures err { OnErr result (self.new ≡ self.old) }
        ensures pair_returned { IfErr result (λ returned. returned ≡ pair) }
        ensures total { self.old.total ≤ self.new.total }
        ensures memory { OnErr result (0 < length (row_at self.old index)) }
        ensures succeeds { further self.old.rows < self.old.total → IsOk result }
    {
        if self.is_vacant(index) {
            self.fill(index, pair);
            return Ok(0);
        }
        let place = insertion::push_further(&mut self.slots[index], &mut self.pool, pair)?;
        Ok(place)
    }

    /// Whether a slot holds no pair.
    #[inline(always)]
    pub(crate) fn is_vacant(&self, index: usize) -> bool
        requires { index < length self.now.rows }
        ensures { MatchBool result (row_at self.now index ≡ [])
            (0 < length (row_at self.now index)) }
    {
        self.slots[index].is_empty()
    }

    /// Puts a first pair into a slot that holds none. It allocates nothing.
    #[inline(always)]
    pub(crate) fn fill(&mut self, index: usize, pair: (Stored<K>, X))
        requires within { index < length self.old.rows }
        requires own { slot_number K.number_of pair.0 (length self.old.rows) ≡ index }
        requires empty { row_at self.old index ≡ [] }
        ensures rows { self.new.rows ≡ set self.old.rows index (pair ∷ []) }
        ensures total { self.new.total ≡ self.old.total }
    {
        let slot = &mut self.slots[index];
        // read before the slot changes, so that a write there can't delay it
        let word = self.bits.word(index);
        slot.fill(NOWHERE, pair);
        self.bits.set_in(word, index);
    }

    /// Whether the first pair of a slot has the key. If there is a first pair, its key is compared,
    /// which is one step.
    #[inline(always)]
    pub(crate) fn first_is(&self, index: usize, key: &Sought<K>, steps: &mut Steps) -> bool
        requires { index < length self.now.rows }
        ensures value { MatchBool result
            (position (λ p. same_key K.number_of key.now p.0) (row_at self.now index) ≡ Some 0)
            (value_of K.number_of (take 1 (row_at self.now index)) key.now ≡ None) }
        ensures counted { steps.new ≡ steps.old + length (take 1 (row_at self.now index)) }
    {
        row::first_is(&self.slots[index], &self.pool, key, steps)
    }

    /// Puts a pair last in its slot. If the slot holds a pair there is room for one more, so it
    /// allocates nothing.
    pub(crate) fn put_back(&mut self, index: usize, pair: (Stored<K>, X))
        requires within { index < length self.old.rows }
        requires own { slot_number K.number_of pair.0 (length self.old.rows) ≡ index }
        requires ready { 0 < length (row_at self.old index)
            → further self.old.rows < self.old.total }
        ensures rows { self.new.rows
            ≡ set self.old.rows index (row_at self.old index ++ pair ∷ []) }
        ensures total { self.old.total ≤ self.new.total }
    {
        match self.push(index, pair) {
            Ok(_) => {}
            Err(_) => unreachable!(),
        }
    }

    /// Removes the pair at a place of a slot. The last pair of the slot takes its place.
    #[inline(always)]
    pub(crate) fn take_at(&mut self, index: usize, place: usize) -> (Stored<K>, X)
        requires { place < length (row_at self.old index) }
        ensures value { result ≡ slice_index_or (row_at self.old index) place result }
        ensures rows { self.new.rows
            ≡ set self.old.rows index (swap_remove (row_at self.old index) place result) }
        ensures total { self.new.total ≡ self.old.total }
        ensures ready { 0 < length (row_at self.new index)
            → further self.new.rows < self.new.total }
    {
        let slot = &mut self.slots[index];
        let Some((link, _)) = slot.get() else {
            unreachable!();
        };
        if link < NODE_LIMIT {
            return removal::swap_remove_of_several(slot, link, &mut self.pool, place);
        }
        take_only(slot, &mut self.bits, index)
    }

    /// Removes the pair of a key from its slot, and returns its value. The last pair of the slot
    /// takes its place. The keys are compared from the front, up to the one sought. Each comparison
    /// is one step.
    #[inline(always)]
    pub(crate) fn remove(&mut self, index: usize, key: Sought<K>, steps: &mut Steps) -> Option<X>
        requires { index < length self.old.rows }
        ensures value { result ≡ value_of K.number_of (row_at self.old index) key }
        ensures rows { self.new.rows ≡ set self.old.rows index (swap_out
            (λ p. same_key K.number_of key p.0) (λ _. true) (row_at self.old index)) }
        ensures total { self.new.total ≡ self.old.total }
        ensures counted { steps.new ≡ steps.old + length
            (through_first (λ p. same_key K.number_of key p.0) (row_at self.old index)) }
    {
        let slot = &mut self.slots[index];
        let Some((link, first)) = slot.get() else {
            return None;
        };
        if link < NODE_LIMIT {
            return removal::remove_of_several(slot, link, &mut self.pool, key, steps);
        }
        if !first.0.matches(&key, steps) {
            return None;
        }
        let (_, value) = take_only(slot, &mut self.bits, index);
        Some(value)
    }

    /// Removes the pair at a place of a slot, if there is one. Those behind it move up by one place.
    /// `index` may be past the last slot.
    pub(crate) fn remove_at(&mut self, index: usize, place: usize) -> Option<(Stored<K>, X)>
        ensures value { IfSome result (λ pair. (place < length (row_at self.old index))
            × (pair ≡ slice_index_or (row_at self.old index) place pair)) }
        ensures none { IfNone result (length (row_at self.old index) ≤ place) }
        ensures rows { self.new.rows ≡ set self.old.rows index
            (take place (row_at self.old index) ++ drop (place + 1) (row_at self.old index)) }
        ensures total { self.new.total ≡ self.old.total }
    {
        if index > self.mask {
            return None;
        }
        let slot = &mut self.slots[index];
        let pair = removal::remove(slot, &mut self.pool, place);
        unmark_if(&mut self.bits, slot.is_empty(), index);
        pair
    }

    /// Removes the first pair of a slot. The last pair of the slot takes its place, and a new one is
    /// put last. It allocates nothing.
    #[inline(always)]
    pub(crate) fn replace_first(&mut self, index: usize, new: (Stored<K>, X)) -> (Stored<K>, X)
        requires some { 0 < length (row_at self.old index) }
        requires own { slot_number K.number_of new.0 (length self.old.rows) ≡ index }
        ensures value { result ≡ slice_index_or (row_at self.old index) 0 result }
        ensures rows { self.new.rows ≡ set self.old.rows index
            (swap_remove (row_at self.old index) 0 result ++ new ∷ []) }
        ensures total { self.new.total ≡ self.old.total }
    {
        insertion::replace_first(&mut self.slots[index], &mut self.pool, new)
    }

    /// Puts the pair of a key and a value last in a slot whose first pair, if there is one, has
    /// another key. If the key is present, the last pair takes the place of its pair, and the old
    /// value is returned. An absent key is added only if `adds` is true. If it isn't added, or if an
    /// allocation fails, the value is returned.
    #[inline(always)]
    pub(crate) fn put(
        &mut self,
        index: usize,
        key: Sought<K>,
        value: X,
        adds: bool,
        steps: &mut Steps,
    ) -> Result<Option<X>, X>
        requires within { index < length self.old.rows }
        requires some { adds ≡ true → 0 < length (row_at self.old index) }
        requires own { slot_number K.number_of key (length self.old.rows) ≡ index }
        requires other { value_of K.number_of (take 1 (row_at self.old index)) key ≡ None }
        ensures value { IfOk result
            (λ old. old ≡ value_of K.number_of (row_at self.old index) key) }
        ensures rows { OnOk result (self.new.rows ≡ set self.old.rows index
            (put_last K.number_of (row_at self.old index) key value)) }
        ensures known { OnOk result (K.is_valid key) }
        ensures adds { IfOk result (λ old. old ≡ None → adds ≡ true) }
        ensures missing { OnErr result (value_of K.number_of (row_at self.old index) key ≡ None) }
        ensures err { OnErr result (self.new ≡ self.old) }
        ensures value_returned { IfErr result (λ returned. returned ≡ value) }
        ensures total { self.old.total ≤ self.new.total }
        ensures succeeds { adds ≡ true → further self.old.rows < self.old.total → IsOk result }
        ensures counted { steps.new ≡ steps.old + length (through_first
            (λ p. same_key K.number_of key p.0) (drop 1 (row_at self.old index))) }
    {
        let slot = &mut self.slots[index];
        let old = insertion::put(slot, &mut self.pool, key, value, adds, steps)?;
        Ok(old)
    }

    /// Puts the pair of a key and a value last in a slot whose first pair, if there is one, has
    /// another key. If the key is present, nothing changes, and the value is dropped. An absent key
    /// is added only if `adds` is true. It returns whether the key was added. If it is absent and
    /// isn't added, or if an allocation fails, the value is returned.
    #[inline(always)]
    pub(crate) fn add_checked(
        &mut self,
        index: usize,
        key: Sought<K>,
        value: X,
        adds: bool,
        steps: &mut Steps,
    ) -> Result<bool, X>
    where
        X: Drop,
        requires within { index < length self.old.rows }
        requires some { adds ≡ true → 0 < length (row_at self.old index) }
        requires own { slot_number K.number_of key (length self.old.rows) ≡ index }
        requires other { value_of K.number_of (take 1 (row_at self.old index)) key ≡ None }
        ensures new { IfOk result
            (λ new. new ≡ is_none (value_of K.number_of (row_at self.old index) key)) }
        ensures rows { IfOk result (λ new. new ≡ true → self.new.rows ≡ set self.old.rows index
            (put_last K.number_of (row_at self.old index) key value)) }
        ensures present { IfOk result (λ new. new ≡ false → self.new ≡ self.old) }
        ensures known { IfOk result (λ new. new ≡ true → K.is_valid key) }
        ensures adds { IfOk result (λ new. new ≡ true → adds ≡ true) }
        ensures missing { OnErr result (value_of K.number_of (row_at self.old index) key ≡ None) }
        ensures err { OnErr result (self.new ≡ self.old) }
        ensures value_returned { IfErr result (λ returned. returned ≡ value) }
        ensures total { self.old.total ≤ self.new.total }
        ensures succeeds { adds ≡ true → further self.old.rows < self.old.total → IsOk result }
        ensures counted { steps.new ≡ steps.old + length (through_first
            (λ p. same_key K.number_of key p.0) (drop 1 (row_at self.old index))) }
    {
        let slot = &mut self.slots[index];
        let new = insertion::add_checked(slot, &mut self.pool, key, value, adds, steps)?;
        Ok(new)
    }

    /// Removes the first pair of a slot. The others move up by one place.
    #[inline(always)]
    pub(crate) fn take_front(&mut self, index: usize) -> (Stored<K>, X)
        requires { 0 < length (row_at self.old index) }
        ensures row { (row : List (K × X)) × (row_at self.old index ≡ result ∷ row)
            × (self.new.rows ≡ set self.old.rows index row) }
        ensures total { self.new.total ≡ self.old.total }
    {
        let slot = &mut self.slots[index];
        let Some((link, _)) = slot.get() else {
            unreachable!();
        };
        if link < NODE_LIMIT {
            return removal::pop_front_of_several(slot, link, &mut self.pool);
        }
        take_only(slot, &mut self.bits, index)
    }
}

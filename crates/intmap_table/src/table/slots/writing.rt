//! A value of one slot is lent to be written, at a place or by its key, and all pairs are dropped.
ghost use Rattle.std.specs.Prelude.{◌≡◌, ◌+◌, ◌<◌, [], ℕ, length, slice_index_or};
ghost use Rattle.intmap_table.specs.Bindings.{value_of};
ghost use Rattle.intmap_table.specs.Classes.{same_key, slot_number};
ghost use Rattle.intmap_table.specs.Reach.{through_first};
ghost use Rattle.intmap_table.specs.Tables.Nodes.{rows_in, AreLinked, IsSlot, IsSlotSet};
ghost use Rattle.intmap_table.specs.Tables.Rows.{row_at};
ghost use Rattle.intmap_table.specs.Tables.Slots.{AreMarked};

use crate::bits::Bits;
use crate::kept::Kept;
use crate::key::IntKey;
use crate::linked::chain::{search, seek};
use crate::linked::node::Node;
use crate::linked::pool::Pool;
use crate::linked::row::removal;
use crate::steps::Steps;
use crate::table::slots::{Slots, add_empty};
use crate::table::stored::{Sought, Stored};
use std::alloc::Allocator;
use std::mem;

/// Drops the pairs of a slot, from its front.
fn drop_row<P: Drop, A: Allocator>(slot: &mut Node<P>, pool: &mut Pool<P, A>)
    requires { IsSlot pool.old.nodes slot.old }
    ensures row { IsSlotSet pool.old slot.old [] pool.new slot.new }
    ensures total { pool.new.total ≡ pool.old.total }
{
    while let Some((link, _)) = slot.get() {
        removal::pop_front(slot, link, pool);
    }
}

/// Drops the pairs of all slots, slot after slot. The bits mark those that hold a pair.
fn drop_rows<K: IntKey, X: Drop, A: Allocator>(
    bits: &Bits<A>,
    slots: &mut Vec<Node<(Stored<K>, X)>, A>,
    pool: &mut Pool<(Stored<K>, X), A>,
)
    requires marks { AreMarked (rows_in slots.old.items pool.old.nodes) bits.now }
    requires linked { AreLinked (λ p. slot_number K.number_of p.0 (length slots.old.items))
        slots.old.items pool.old }
    ensures linked { AreLinked (λ p. slot_number K.number_of p.0 (length slots.new.items))
        slots.new.items pool.new }
    ensures len { length slots.new.items ≡ length slots.old.items }
    ensures empty { (i : ℕ)
        → slice_index_or (rows_in slots.new.items pool.new.nodes) i [] ≡ [] }
    ensures total { pool.new.total ≡ pool.old.total }
{
    for index in bits.iter() {
        drop_row(&mut slots[index], pool);
    }
}

impl<K: IntKey, X, A: Allocator> Slots<K, X, A> {
    ghost use Rattle.std.specs.Borrow.{sem};
    ghost use Rattle.intmap_table.specs.Lending.{slots_lends};

    /// A mutable reference to the value of the pair at a place of a slot.
    #[inline(always)]
    pub(crate) fn value_mut_at(&mut self, index: usize, place: usize) -> &mut X
        requires { place < length (row_at self.old index) }
        ensures* writes_back { sem 𝓛 (slots_lends K.row X.row A.row K.IntKey.own K.PartialEq
            A.Allocator self.entry index place result) }
        ensures value { (p : K × X)
            → result.now ≡ (slice_index_or (row_at self.old index) place p).1 }
    {
        if place == 0 {
            return self.slots[index].value_mut();
        }
        let Some((link, _)) = self.slots[index].get() else {
            unreachable!();
        };
        let at = seek(&self.pool, link, place - 1);
        self.pool.value_mut(at)
    }
}

impl<K: IntKey, V, A: Allocator> Slots<K, Kept<V>, A> {
    ghost use Rattle.std.specs.Borrow.{sem};
    ghost use Rattle.std.specs.Option.{option_copied_mut};
    ghost use Rattle.intmap_table.specs.Lending.{slots_lends_present};

    /// A mutable reference to the value of the key's pair in a slot. The keys are compared from the
    /// front, up to the one sought. Each comparison is one step.
    #[inline(always)]
    pub(crate) fn value_mut_of(
        &mut self,
        index: usize,
        key: &Sought<K>,
        steps: &mut Steps,
    ) -> Option<&mut V>
        requires { index < length self.old.rows }
        ensures* writes_back { sem 𝓛 (slots_lends_present K.row V.row A.row K.IntKey.own K.PartialEq
            A.Allocator self.entry index key.now result) }
        ensures value { option_copied_mut result
            ≡ value_of K.number_of (row_at self.old index) key.now }
        ensures counted { steps.new ≡ steps.old + length
            (through_first (λ p. same_key K.number_of key.now p.0) (row_at self.old index)) }
    {
        let Some((link, first)) = self.slots[index].get() else {
            return None;
        };
        if first.0.matches(key, steps) {
            return Some(self.slots[index].value_mut().get_mut());
        }
        let Ok(spot) = search(&self.pool, link, key, steps) else {
            return None;
        };
        Some(self.pool.value_mut(spot.at).get_mut())
    }
}

impl<K: IntKey, X: Drop, A: Allocator> Slots<K, X, A> {
    /// Drops all pairs, slot after slot, and keeps the slots and the memory that they and the nodes
    /// have.
    pub(crate) fn clear(&mut self)
        ensures len { length self.new.rows ≡ length self.old.rows }
        ensures empty { (i : ℕ) → row_at self.new i ≡ [] }
        ensures total { self.new.total ≡ self.old.total }
    {
        if mem::needs_drop::<X>() {
            drop_rows(&self.bits, &mut self.slots, &mut self.pool);
        } else {
            // nothing shows in which order such values are dropped
            let count = self.slots.len();
            self.slots.truncate(0);
            add_empty(&mut self.slots, count);
            self.pool.clear();
        }
        self.bits.clear_all();
    }
}

//! Cursors in the walk of a table: steps, removal and copies at a cursor.
ghost use Rattle.std.specs.Prelude.{◌≡◌, ◌+◌, ◌-◌, ◌<◌, ◌≤◌, ◌^◌, ℕ, [], ◌∷◌, ◌++◌, cond, drop, is_some, length, set, slice_index_or, take, MatchOption, IfNone, IfSome};
ghost use Rattle.intmap_table.specs.Copying.{AreCopied};
ghost use Rattle.intmap_table.specs.Picking.{pairs_before};
ghost use Rattle.intmap_table.specs.Tables.Slots.{joined, count_before};
ghost use Rattle.intmap_table.specs.Tables.Rows.{row_at};
ghost use Rattle.intmap_table.specs.Walk.{slot_of, walk_of};
ghost use Rattle.intmap_table.specs.Classes.{slot_number};

use crate::kept::Kept;
use crate::key::IntKey;
use crate::table::Table;
use crate::table::slots::Slots;
use crate::table::slots::reached::PairsFrom;
use crate::table::stored::Stored;
use std::alloc::Allocator;

/// A position in a walk: before the pair at this place of this slot or, if the slot has no such
/// pair, before the pairs of the slots behind it. Both numbers count from 0, and any two of them
/// are a position in every walk.
#[repr(C)]
#[derive(Clone, Copy)]
pub struct Cursor {
    pub slot: usize,
    pub place: usize,
}

impl Cursor {
    /// The start of every walk.
    pub fn start() -> Cursor
        ensures { result ≡ record { slot = 0; place = 0 } }
    {
        Cursor { slot: 0, place: 0 }
    }
}

/// Removes the first pair from the cursor on, and moves the cursor to the place where it was.
#[inline(always)]
fn cut_from<K: IntKey, X, A: Allocator>(
    slots: &mut Slots<K, X, A>,
    at: &mut Cursor,
) -> Option<(Stored<K>, X)>
    requires { length slots.old.rows ≤ 2 ^ 63 }
    ensures value { IfSome result (λ pair.
        (at.new.place < length (row_at slots.old at.new.slot))
        × (pair ≡ slice_index_or (row_at slots.old at.new.slot) at.new.place pair)
        × (slots.new.rows ≡ set slots.old.rows at.new.slot
        (take at.new.place (row_at slots.old at.new.slot)
        ++ drop (at.new.place + 1) (row_at slots.old at.new.slot)))) }
    ensures none { IfNone result ((slots.new ≡ slots.old) × (at.new ≡ at.old)
        × (drop (count_before slots.old.rows at.old.slot at.old.place)
        (joined slots.old.rows) ≡ [])) }
    ensures same { count_before slots.old.rows at.new.slot at.new.place
        ≡ count_before slots.old.rows at.old.slot at.old.place }
    ensures total { slots.new.total ≡ slots.old.total }
{
    if let Some(pair) = slots.remove_at(at.slot, at.place) {
        return Some(pair);
    }
    let Some(slot) = slots.next_filled(at.slot.saturating_add(1)) else {
        return None;
    };
    *at = Cursor { slot, place: 0 };
    Some(slots.take_front(slot))
}

/// Copies pairs from a cursor on, behind which the cursor moves, and returns how many: as many as
/// there are elements to be written, or all that are left.
#[inline(always)]
fn copy_rest<K: IntKey, V: Copy, A: Allocator, P: From<(K, V)> + Drop>(
    rest: &mut PairsFrom<'_, K, Kept<V>, A>,
    copies: &mut [P],
) -> usize
    ensures copies { AreCopied P.from_gives
        (drop (count_before rest.old.rows rest.old.at.slot rest.old.at.place)
        (joined rest.old.rows)) copies.old copies.new result }
    ensures passed { count_before rest.old.rows rest.new.at.slot rest.new.at.place
        ≡ count_before rest.old.rows rest.old.at.slot rest.old.at.place + result }
    ensures here { 0 < result → (j : ℕ) × (rest.new.at.place ≡ j + 1)
        × (j < length (slice_index_or rest.old.rows rest.new.at.slot [])) }
    ensures stays { result ≡ 0 → rest.new.at ≡ rest.old.at }
{
    let mut count = 0;
    while count < copies.len() {
        let Some(pair) = rest.next() else {
            return count;
        };
        copies[count] = P::from((*pair.0.key(), *pair.1.get()));
        count += 1;
    }
    count
}

impl<K: IntKey, X, A: Allocator> Table<K, X, A> {
    /// The first pair from the cursor on, behind which the cursor moves, or `None` if no pair is
    /// left. Then the cursor stays.
    pub fn step(&self, at: &mut Cursor) -> Option<(&K, &X)>
        requires count { length self.now.walk < 2 ^ 64 }
        ensures first { MatchOption result
            (drop (pairs_before K.number_of self.now.walk self.now.capacity at.old)
            self.now.walk ≡ [])
            (λ pair. drop (pairs_before K.number_of self.now.walk self.now.capacity at.old)
            self.now.walk ≡ (pair.0.now, pair.1.now)
            ∷ drop (pairs_before K.number_of self.now.walk self.now.capacity at.new)
            self.now.walk) }
        ensures passed { pairs_before K.number_of self.now.walk self.now.capacity at.new
            ≡ pairs_before K.number_of self.now.walk self.now.capacity at.old
            + cond (is_some result) 1 0 }
        ensures slot { IfSome result (λ pair. at.new.slot
            ≡ slot_number K.number_of pair.0.now self.now.capacity) }
        ensures within { IfSome result (λ _. at.new.place
            ≤ length (slot_of K.number_of self.now.walk self.now.capacity at.new.slot)) }
        ensures stays { IfNone result (at.new ≡ at.old) }
    {
        let mut rest = self.slots.pairs_from(*at);
        let Some(pair) = rest.next() else {
            return None;
        };
        *at = rest.at;
        Some((pair.0.key(), &pair.1))
    }

    /// Removes the first pair from the cursor on and returns it. The other pairs keep their order,
    /// and the cursor is then between those that were before it and those that were behind the
    /// removed one. If no pair is left, it returns `None`, and the cursor stays.
    pub fn cut(&mut self, at: &mut Cursor) -> Option<(K, X)>
        requires count { length self.old.walk < 2 ^ 64 }
        ensures first { MatchOption result
            (drop (pairs_before K.number_of self.old.walk self.old.capacity at.old)
            self.old.walk ≡ [])
            (λ pair. drop (pairs_before K.number_of self.old.walk self.old.capacity at.old)
            self.old.walk ≡ pair
            ∷ drop (pairs_before K.number_of self.new.walk self.new.capacity at.new)
            self.new.walk) }
        ensures before { take (pairs_before K.number_of self.new.walk self.new.capacity at.new)
            self.new.walk
            ≡ take (pairs_before K.number_of self.old.walk self.old.capacity at.old) self.old.walk }
        ensures passed { pairs_before K.number_of self.new.walk self.new.capacity at.new
            ≡ pairs_before K.number_of self.old.walk self.old.capacity at.old }
        ensures slot { IfSome result
            (λ pair. at.new.slot ≡ slot_number K.number_of pair.0 self.old.capacity) }
        ensures within { IfSome result (λ _. at.new.place
            ≤ length (slot_of K.number_of self.new.walk self.new.capacity at.new.slot)) }
        ensures none { IfNone result ((self.new ≡ self.old) × (at.new ≡ at.old)) }
        ensures capacity { self.new.capacity ≡ self.old.capacity }
        ensures nodes { self.new.nodes ≡ self.old.nodes }
        ensures own { walk_of K.number_of self.new.walk self.new.capacity ≡ self.new.walk }
    {
        let Some((key, value)) = cut_from(&mut self.slots, at) else {
            return None;
        };
        Some((*key.key(), value))
    }
}

impl<K: IntKey, V: Copy, A: Allocator> Table<K, Kept<V>, A> {
    /// Copies pairs of the walk from the cursor on, behind which the cursor moves, and returns how
    /// many: as many as there are elements to be written, or all that are left.
    #[inline(always)]
    pub fn copy_pairs<P: From<(K, V)> + Drop>(&self, at: &mut Cursor, copies: &mut [P]) -> usize
        ensures copies { AreCopied P.from_gives
            (drop (pairs_before K.number_of self.now.walk self.now.capacity at.old) self.now.walk)
            copies.old copies.new result }
        ensures passed { pairs_before K.number_of self.now.walk self.now.capacity at.new
            ≡ pairs_before K.number_of self.now.walk self.now.capacity at.old + result }
        ensures slot { (p : K × V) → 0 < result → at.new.slot ≡ slot_number K.number_of
            (slice_index_or self.now.walk (pairs_before K.number_of self.now.walk self.now.capacity
            at.new - 1) p).0 self.now.capacity }
        ensures within { 0 < result → at.new.place
            ≤ length (slot_of K.number_of self.now.walk self.now.capacity at.new.slot) }
        ensures stays { result ≡ 0 → at.new ≡ at.old }
    {
        let mut rest = self.slots.pairs_from(*at);
        let count = copy_rest(&mut rest, copies);
        *at = rest.at;
        count
    }
}

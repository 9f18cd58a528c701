//! Pairs of the walk are kept or removed, as the bits of a word say.
ghost use Rattle.std.specs.Prelude.{◌≡◌, ◌+◌, ◌-◌, ◌<◌, ◌≤◌, ◌++◌, [], drop, length, slice_index_or, take};
ghost use Rattle.intmap_table.specs.Classes.{slot_number};
ghost use Rattle.intmap_table.specs.Keeping.{kept_by, next_pairs};
ghost use Rattle.intmap_table.specs.Picking.{pairs_before};
ghost use Rattle.intmap_table.specs.Tables.Keeping.{KeepsRows};
ghost use Rattle.intmap_table.specs.Tables.Rows.{IsTable};
ghost use Rattle.intmap_table.specs.Tables.Slots.{count_before, joined};
ghost use Rattle.intmap_table.specs.Walk.{slot_of, walk_of};

use crate::key::IntKey;
use crate::linked::keep::KeepBits;
use crate::table::Table;
use crate::table::slots::Slots;
use crate::table::walk::Cursor;
use std::alloc::Allocator;

/// Keeps or removes pairs from the cursor on, slot after slot, each as its bit says. The cursor
/// moves behind those that stay. It goes on until no bit or no pair is left.
fn keep_slots<K: IntKey, X: Drop, A: Allocator>(
    slots: &mut Slots<K, X, A>,
    at: &mut Cursor,
    bits: &mut KeepBits,
)
    requires { IsTable K.number_of slots.old.rows }
    ensures rows { KeepsRows K.number_of bits.old slots.old.rows at.old bits.new slots.new.rows
        at.new }
    ensures ends { 0 < bits.new.left
        → length (joined slots.new.rows) ≤ count_before slots.new.rows at.new.slot at.new.place }
    ensures total { slots.new.total ≡ slots.old.total }
{
    slots.keep_at(at.slot, &mut at.place, bits);
    let mut from = at.slot.saturating_add(1);
    let mut left = slots.marks_from(from);
    while bits.left > 0 {
        let Some(slot) = slots.next_in(&mut left, from) else {
            return;
        };
        *at = Cursor { slot, place: 0 };
        slots.keep_at(slot, &mut at.place, bits);
        from = slot + 1;
    }
}

impl<K: IntKey, X: Drop, A: Allocator> Table<K, X, A> {
    /// Goes over the next 64 pairs of the walk from the cursor on, or over all that are left if
    /// they are fewer. The lowest bit of `marks` is that of the first of them, and so on. It keeps
    /// the pairs whose bit is set, removes the others and returns how many it removed. The pairs
    /// that stay keep their order. The cursor is then behind those that were kept.
    pub fn keep_marked(&mut self, at: &mut Cursor, marks: u64) -> usize
        ensures walk { self.new.walk
            ≡ take (pairs_before K.number_of self.old.walk self.old.capacity at.old) self.old.walk
            ++ (kept_by marks (next_pairs K.number_of self.old.walk self.old.capacity at.old)
            ++ drop (pairs_before K.number_of self.old.walk self.old.capacity at.old + 64)
            self.old.walk) }
        ensures passed { pairs_before K.number_of self.new.walk self.new.capacity at.new
            ≡ pairs_before K.number_of self.old.walk self.old.capacity at.old
            + length (kept_by marks
            (next_pairs K.number_of self.old.walk self.old.capacity at.old)) }
        ensures removed { result
            + length (kept_by marks (next_pairs K.number_of self.old.walk self.old.capacity at.old))
            ≡ length (next_pairs K.number_of self.old.walk self.old.capacity at.old) }
        ensures slot { (p : K × X)
            → let asked = next_pairs K.number_of self.old.walk self.old.capacity at.old in
            0 < length asked → at.new.slot ≡ slot_number K.number_of
            (slice_index_or asked (length asked - 1) p).0 self.old.capacity }
        ensures within { 0 < length (next_pairs K.number_of self.old.walk self.old.capacity at.old)
            → at.new.place
            ≤ length (slot_of K.number_of self.new.walk self.new.capacity at.new.slot) }
        ensures stays { next_pairs K.number_of self.old.walk self.old.capacity at.old ≡ []
            → at.new ≡ at.old }
        ensures capacity { self.new.capacity ≡ self.old.capacity }
        ensures nodes { self.new.nodes ≡ self.old.nodes }
        ensures own { walk_of K.number_of self.new.walk self.new.capacity ≡ self.new.walk }
    {
        let mut bits = KeepBits {
            word: marks,
            left: 64,
        };
        keep_slots(&mut self.slots, at, &mut bits);
        let kept = marks.count_ones() - bits.word.count_ones();
        64 - bits.left - kept as usize
    }
}

//! Closures are called at the pairs of slots.
ghost use Rattle.std.specs.Prelude.{◌≡◌, ◌%◌, ◌<◌, ◌≤◌, List, drop, length, set};
ghost use Rattle.intmap_table.specs.Classes.{slot_number};
ghost use Rattle.intmap_table.specs.Picking.{AsksAt, ExtractsBehind, PicksAt};
ghost use Rattle.intmap_table.specs.Retaining.{KeepsAt, Retains, TakesPair};
ghost use Rattle.intmap_table.specs.Tables.Nodes.{rows_in, AreLinked};
ghost use Rattle.intmap_table.specs.Tables.Rows.{row_at, IsTable};
ghost use Rattle.intmap_table.specs.Tables.Slots.{joined};
ghost use Rattle.intmap_table.specs.Tables.WordRows.{word_rows, IsFilledWord, IsWordChanged};
ghost use Rattle.intmap_table.specs.Taking.{TakesEach};
ghost use Rattle.intmap_table.specs.Writes.{TakesPairMut, Writes, WritesAt};

use crate::kept::Kept;
use crate::key::IntKey;
use crate::linked::closures;
use crate::linked::node::Node;
use crate::linked::pool::Pool;
use crate::table::slots::Slots;
use crate::table::slots::pairs::unmark_if;
use crate::table::stored::Stored;
use std::alloc::Allocator;

/// Keeps the pairs for which the closure returns true, in their order, slot after slot. `word` has
/// the bits of the 64 slots from an index on, and the closure is called at the pairs of these slots
/// alone. Returns the word without the bits of the slots that the calls emptied.
#[inline(always)]
fn retain_marked<K: IntKey, V: Drop, A: Allocator, F: FnMut(K, &V) -> bool>(
    slots: &mut Vec<Node<(Stored<K>, Kept<V>)>, A>,
    pool: &mut Pool<(Stored<K>, Kept<V>), A>,
    from: usize,
    word: u64,
    f: &mut F,
) -> u64
    requires within { from < length slots.old.items }
    requires linked { AreLinked (λ p. slot_number K.number_of p.0 (length slots.old.items))
        slots.old.items pool.old }
    requires word { IsFilledWord (word_rows from (rows_in slots.old.items pool.old.nodes)) word }
    requires callable { TakesEach (KeepsAt F.FnMut) (TakesPair F.FnMut) f.old
        (joined (word_rows from (rows_in slots.old.items pool.old.nodes))) }
    ensures linked { AreLinked (λ p. slot_number K.number_of p.0 (length slots.new.items))
        slots.new.items pool.new }
    ensures len { length slots.new.items ≡ length slots.old.items }
    ensures rows { IsWordChanged from (rows_in slots.old.items pool.old.nodes)
        (rows_in slots.new.items pool.new.nodes) }
    ensures pairs { Retains (KeepsAt F.FnMut) f.old
        (joined (word_rows from (rows_in slots.old.items pool.old.nodes)))
        (joined (word_rows from (rows_in slots.new.items pool.new.nodes))) f.new }
    ensures word { IsFilledWord (word_rows from (rows_in slots.new.items pool.new.nodes)) result }
    ensures total { pool.new.total ≡ pool.old.total }
{
    let mut kept = word;
    let mut left = word;
    while left != 0 {
        let slot = &mut slots[from + left.trailing_zeros() as usize];
        closures::retain(slot, pool, f);
        let rest = left & (left - 1);
        if slot.is_empty() {
            kept &= !(left ^ rest);
        }
        left = rest;
    }
    kept
}

impl<K: IntKey, V: Drop, A: Allocator> Slots<K, Kept<V>, A> {
    /// Keeps the pairs of the 64 slots from an index on for which the closure returns true, in
    /// their order. The closure is called once at each pair. The word of these slots is written
    /// behind the last call, so their bits lag until then.
    #[inline(always)]
    pub(crate) fn retain_word<F: FnMut(K, &V) -> bool>(&mut self, from: usize, f: &mut F)
        requires within { from < length self.old.rows }
        requires start { from % 64 ≡ 0 }
        requires callable { TakesEach (KeepsAt F.FnMut) (TakesPair F.FnMut) f.old
            (joined (word_rows from self.old.rows)) }
        ensures rows { IsWordChanged from self.old.rows self.new.rows }
        ensures pairs { Retains (KeepsAt F.FnMut) f.old (joined (word_rows from self.old.rows))
            (joined (word_rows from self.new.rows)) f.new }
        ensures table { IsTable K.number_of self.new.rows }
        ensures total { self.new.total ≡ self.old.total }
    {
        let word = self.bits.word(from);
        let kept = retain_marked(&mut self.slots, &mut self.pool, from, word, f);
        self.bits.set_word(from, kept);
    }
}

impl<K: IntKey, V, A: Allocator> Slots<K, Kept<V>, A> {
    /// Asks the closure about each pair of a slot, from the place on, and removes the first one
    /// that it picks. Those behind it move up, and the place moves on to the first of them.
    #[inline(always)]
    pub(crate) fn extract_at<F: FnMut(K, &mut V) -> bool>(
        &mut self,
        index: usize,
        place: &mut usize,
        f: &mut F,
    ) -> Option<(Stored<K>, Kept<V>)>
        requires filled { 0 < length (row_at self.old index) }
        requires within { place.old ≤ length (row_at self.old index) }
        requires callable { TakesEach (AsksAt F.FnMut) (TakesPairMut F.FnMut) f.old
            (drop place.old (row_at self.old index)) }
        ensures step { (row : List (K × V)) × (self.new.rows ≡ set self.old.rows index row)
            × ExtractsBehind (PicksAt F.FnMut) f.old (row_at self.old index) place.old result
            f.new row place.new
            × (place.new ≤ length row) }
        ensures on { place.old ≤ place.new }
        ensures total { self.new.total ≡ self.old.total }
    {
        let slot = &mut self.slots[index];
        let found = closures::extract(slot, &mut self.pool, place, f);
        unmark_if(&mut self.bits, slot.is_empty(), index);
        found
    }

    /// Calls the closure at each pair of a slot in turn, with a mutable reference to its value.
    #[inline(always)]
    pub(crate) fn write_at<F: FnMut(K, &mut V)>(&mut self, index: usize, f: &mut F)
        requires filled { 0 < length (row_at self.old index) }
        requires callable { TakesEach (WritesAt F.FnMut) (TakesPairMut F.FnMut) f.old
            (row_at self.old index) }
        ensures row { (row : List (K × V)) × (self.new.rows ≡ set self.old.rows index row)
            × Writes (WritesAt F.FnMut) f.old (row_at self.old index) row f.new }
        ensures total { self.new.total ≡ self.old.total }
    {
        closures::write_each(&mut self.slots[index], &mut self.pool, f);
    }
}

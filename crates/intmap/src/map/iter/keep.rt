//! Pairs are kept or removed along the walk, 64 at a call.
ghost use Rattle.std.specs.Prelude.{◌≡◌, ◌+◌, ◌-◌, ◌<◌, ◌≤◌, ◌++◌, [], cond, drop, length, slice_index_or, take, None};
ghost use Rattle.std.specs.List.{list_any};
ghost use Rattle.intmap_table.specs.Bindings.{value_of};
ghost use Rattle.intmap_table.specs.Classes.{same_key, slot_number};
ghost use Rattle.intmap_table.specs.Keeping.{dropped_by, kept_by, next_pairs};
ghost use Rattle.intmap_table.specs.Walk.{slot_of};
ghost use Rattle.intmap.specs.Map.{IsMap, passed, with_walk};

use crate::map::IntMap;
use crate::map::iter::Cursor;
use intmap_table::IntKey;
use std::alloc::Allocator;

impl<K: IntKey, V: Drop, A: Allocator + Copy> IntMap<K, V, A> {
    /// Keeps or removes the next 64 pairs of the walk from the cursor on, or all that are left if
    /// they are fewer. The lowest bit of `marks` is that of the first of these pairs, the next bit
    /// that of the second, and so on. A pair whose bit is set stays, and the others are removed. The
    /// call returns how many it removed. The pairs that stay keep their order, and the cursor is
    /// then behind them. If no pair is left, the cursor stays. As with [`step`](IntMap::step), any
    /// cursor will do.
    ///
    /// The capacity, the load factor and both counts stay, and the map keeps its memory. The call
    /// allocates nothing and never fails. It goes once past the pairs of the cursor's slot that are
    /// before the cursor, also if it removes many.
    ///
    /// ```text
    /// let mut map = IntMap::from_array(alloc, [(0, 10), (4, 14), (8, 18)])?;
    /// let mut at = Cursor::start();
    /// map.step(&mut at)                 // Some((0, 10))
    /// map.keep_marked(&mut at, 0b10)    // 1
    /// map                               // {0: 10, 8: 18}
    /// map.step(&mut at)                 // None
    /// ```
    pub fn keep_marked(&mut self, at: &mut Cursor, marks: u64) -> usize
        // which pairs stay, and where the cursor is then
        ensures walk { self.new.walk ≡ take (passed K.number_of self.old at.old) self.old.walk
            ++ (kept_by marks (next_pairs K.number_of self.old.walk self.old.capacity at.old)
            ++ drop (passed K.number_of self.old at.old + 64) self.old.walk) }
        ensures passed { passed K.number_of self.new at.new ≡ passed K.number_of self.old at.old
            + length (kept_by marks
            (next_pairs K.number_of self.old.walk self.old.capacity at.old)) }
        ensures slot { (p : K × V)
            → let asked = next_pairs K.number_of self.old.walk self.old.capacity at.old in
            0 < length asked → at.new.slot ≡ slot_number K.number_of
            (slice_index_or asked (length asked - 1) p).0 self.old.capacity }
        ensures within { 0 < length (next_pairs K.number_of self.old.walk self.old.capacity at.old)
            → at.new.place
            ≤ length (slot_of K.number_of self.new.walk self.new.capacity at.new.slot) }
        ensures stays { next_pairs K.number_of self.old.walk self.old.capacity at.old ≡ []
            → at.new ≡ at.old }

        // the keys of the pairs that were removed are absent, and each other key has its value
        ensures updates { (q : K) → value_of K.number_of self.new.walk q
            ≡ cond (list_any (λ pair. same_key K.number_of q pair.0) (dropped_by marks
            (next_pairs K.number_of self.old.walk self.old.capacity at.old)))
            None (value_of K.number_of self.old.walk q) }
        ensures removed { result ≡ length (dropped_by marks
            (next_pairs K.number_of self.old.walk self.old.capacity at.old)) }
        ensures len { length self.new.walk + result ≡ length self.old.walk }
        ensures state { self.new ≡ with_walk self.old self.new.walk }
        ensures valid { IsMap K.number_of K.is_valid self.old }
        ensures valid_after { IsMap K.number_of K.is_valid self.new }
    {
        let removed = self.table.keep_marked(at, marks);
        self.len -= removed;
        removed
    }
}

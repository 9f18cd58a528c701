//! Walks that are kept as a cursor, and not as an iterator that borrows the map.
ghost use Rattle.std.specs.Prelude.{◌≡◌, ◌+◌, ◌-◌, ◌<◌, ◌≤◌, [], ◌∷◌, cond, drop, is_some, length, slice_index_or, take, IfNone, IfSome, MatchOption, None};
ghost use Rattle.intmap_table.specs.Bindings.{Updates};
ghost use Rattle.intmap_table.specs.Classes.{slot_number};
ghost use Rattle.intmap_table.specs.Copying.{AreCopied};
ghost use Rattle.intmap_table.specs.Walk.{slot_of};
ghost use Rattle.intmap.specs.Map.{IsMap, passed, with_walk};

use crate::map::IntMap;
use intmap_table::IntKey;
pub use intmap_table::table::walk::Cursor;
use std::alloc::Allocator;

impl<K: IntKey, V, A: Allocator + Copy> IntMap<K, V, A> {
    /// The first pair of the walk from the cursor on, behind which the cursor moves, or `None` if
    /// no pair is left. Then the cursor stays.
    ///
    /// A walk begins with [`Cursor::start`]. Any cursor will do, whatever happened to the map
    /// since: it is before the pair at its place in its slot or, if the slot has no such pair,
    /// before the slots behind. So after an insertion or a removal in a slot that was passed, the
    /// walk goes on as before. In the cursor's own slot, a removal may move a pair to a place that
    /// was passed, and the walk doesn't show it then. The insertion of a present key may do so too,
    /// and puts its own pair last, so the walk may show that pair again. Once the map has grown,
    /// pairs are in other slots, and the walk may show some again or not at all. The call allocates
    /// nothing and never fails.
    ///
    /// Each call goes from the front of the cursor's slot to the cursor's place. So a whole walk
    /// takes time in the numbers of pairs and slots, and in the square of the pairs of each crowded
    /// slot. [`copy_pairs`](IntMap::copy_pairs) goes on from pair to pair.
    ///
    /// ```text
    /// let map = IntMap::from_array(alloc, [(0, 10), (1, 11), (4, 14)])?;
    /// let mut at = Cursor::start();
    /// map.step(&mut at)    // Some((0, 10))
    /// map.step(&mut at)    // Some((4, 14))
    /// map.step(&mut at)    // Some((1, 11))
    /// map.step(&mut at)    // None
    /// ```
    pub fn step(&self, at: &mut Cursor) -> Option<(&K, &V)>
        ensures first { MatchOption result
            (drop (passed K.number_of self.now at.old) self.now.walk ≡ [])
            (λ pair. drop (passed K.number_of self.now at.old) self.now.walk
            ≡ (pair.0.now, pair.1.now) ∷ drop (passed K.number_of self.now at.new) self.now.walk) }
        ensures passed { passed K.number_of self.now at.new
            ≡ passed K.number_of self.now at.old + cond (is_some result) 1 0 }
        ensures slot { IfSome result (λ pair. at.new.slot
            ≡ slot_number K.number_of pair.0.now self.now.capacity) }
        ensures within { IfSome result (λ _. at.new.place
            ≤ length (slot_of K.number_of self.now.walk self.now.capacity at.new.slot)) }
        ensures stays { IfNone result (at.new ≡ at.old) }
        ensures valid { IsMap K.number_of K.is_valid self.now }
    {
        let Some((key, kept)) = self.table.step(at) else {
            return None;
        };
        Some((key, kept.get()))
    }

    /// Removes the first pair of the walk from the cursor on and returns it, or returns `None` if
    /// no pair is left, and then leaves the cursor. Otherwise the cursor is between the pairs that
    /// were before it and those that were behind the removed one. Both keep their order. As with
    /// [`step`](IntMap::step), any cursor will do.
    ///
    /// The other pairs of the slot behind the removed one move up by one place. The capacity, the
    /// load factor and both counts stay, and the map keeps its memory. It allocates nothing and
    /// never fails. It goes to the cursor's place as `step` does.
    ///
    /// ```text
    /// let mut map = IntMap::from_array(alloc, [(0, 10), (4, 14), (8, 18)])?;
    /// let mut at = Cursor::start();
    /// map.step(&mut at)    // Some((0, 10))
    /// map.cut(&mut at)     // Some((4, 14))
    /// map                  // {0: 10, 8: 18}
    /// map.step(&mut at)    // Some((8, 18))
    /// ```
    pub fn cut(&mut self, at: &mut Cursor) -> Option<(K, V)>
        ensures first { MatchOption result
            (drop (passed K.number_of self.old at.old) self.old.walk ≡ [])
            (λ pair. drop (passed K.number_of self.old at.old) self.old.walk
            ≡ pair ∷ drop (passed K.number_of self.new at.new) self.new.walk) }
        ensures before { take (passed K.number_of self.new at.new) self.new.walk
            ≡ take (passed K.number_of self.old at.old) self.old.walk }
        ensures passed { passed K.number_of self.new at.new ≡ passed K.number_of self.old at.old }
        ensures slot { IfSome result
            (λ pair. at.new.slot ≡ slot_number K.number_of pair.0 self.old.capacity) }
        ensures within { IfSome result (λ _. at.new.place
            ≤ length (slot_of K.number_of self.new.walk self.new.capacity at.new.slot)) }
        ensures stays { IfNone result (at.new ≡ at.old) }
        ensures state { self.new ≡ with_walk self.old self.new.walk }
        ensures updates { MatchOption result (self.new.walk ≡ self.old.walk)
            (λ pair. Updates K.number_of self.old.walk self.new.walk pair.0 None) }
        ensures len { length self.new.walk + cond (is_some result) 1 0 ≡ length self.old.walk }
        ensures valid { IsMap K.number_of K.is_valid self.old }
        ensures valid_after { IsMap K.number_of K.is_valid self.new }
    {
        let Some((key, kept)) = self.table.cut(at) else {
            return None;
        };
        self.len -= 1;
        Some((key, kept.into_value()))
    }
}

impl<K: IntKey, V: Copy, A: Allocator + Copy> IntMap<K, V, A> {
    /// Copies the pairs of the walk from the cursor on to the front of `copies`, and moves the
    /// cursor behind them. It returns how many it copied: as many as `copies` has elements, or all
    /// that are left if they are fewer. The other elements stay. As with [`step`](IntMap::step),
    /// any cursor will do.
    ///
    /// An element is made of a pair by `From`, so it may be the pair itself. The call allocates
    /// nothing and never fails. It goes once from the front of the cursor's slot to the cursor's
    /// place, and then from pair to pair. So a whole walk by one call takes time in the numbers of
    /// pairs and slots, however many pairs share a slot.
    ///
    /// ```text
    /// let map = IntMap::from_array(alloc, [(0, 10), (1, 11), (4, 14)])?;
    /// let mut at = Cursor::start();
    /// let mut copies = [(0, 0), (0, 0)];
    /// map.copy_pairs(&mut at, copies.as_mut_slice())    // 2
    /// copies                                            // [(0, 10), (4, 14)]
    /// map.copy_pairs(&mut at, copies.as_mut_slice())    // 1
    /// copies                                            // [(1, 11), (4, 14)]
    /// ```
    pub fn copy_pairs<P: From<(K, V)> + Drop>(&self, at: &mut Cursor, copies: &mut [P]) -> usize
        ensures copies { AreCopied P.from_gives
            (drop (passed K.number_of self.now at.old) self.now.walk) copies.old copies.new result }
        ensures passed { passed K.number_of self.now at.new
            ≡ passed K.number_of self.now at.old + result }
        ensures slot { (p : K × V) → 0 < result → at.new.slot ≡ slot_number K.number_of
            (slice_index_or self.now.walk (passed K.number_of self.now at.new - 1) p).0
            self.now.capacity }
        ensures within { 0 < result → at.new.place
            ≤ length (slot_of K.number_of self.now.walk self.now.capacity at.new.slot) }
        ensures stays { result ≡ 0 → at.new ≡ at.old }
        ensures valid { IsMap K.number_of K.is_valid self.now }
    {
        self.table.copy_pairs(at, copies)
    }
}

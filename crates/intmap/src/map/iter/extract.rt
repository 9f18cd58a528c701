//! Removal of the pairs that a closure picks, one by one.
ghost use Rattle.std.specs.Prelude.{◌≡◌, Some, [], length, drop};
ghost use Rattle.std.specs.Iterator.{item_count};
ghost use Rattle.intmap_table.specs.Picking.{AsksAt, ExtractsBehind, IsReached, PicksAt};
ghost use Rattle.intmap_table.specs.Taking.{TakesEach};
ghost use Rattle.intmap_table.specs.Writes.{TakesPairMut};
ghost use Rattle.intmap.specs.Map.{IsMap, with_walk};

use crate::map::IntMap;
use intmap_table::IntKey;
use intmap_table::table::Progress;
use std::alloc::{Allocator, Global};

impl<K: IntKey, V, A: Allocator + Copy> IntMap<K, V, A> {
    /// Removes the first pair that the closure picks, of those that are left, and moves on to the
    /// pair behind that one.
    pub(super) fn extract_next<F: FnMut(K, &mut V) -> bool>(
        &mut self,
        at: &mut Progress,
        f: &mut F,
    ) -> Option<(K, V)>
        requires reached { IsReached K.number_of self.old.walk self.old.capacity
            at.old.slot at.old.place at.old.passed }
        requires callable { TakesEach (AsksAt F.FnMut) (TakesPairMut F.FnMut) f.old
            (drop at.old.passed self.old.walk) }
        ensures step { ExtractsBehind (PicksAt F.FnMut) f.old self.old.walk at.old.passed result
            f.new self.new.walk at.new.passed }
        ensures state { self.new ≡ with_walk self.old self.new.walk }
        ensures reached { IsReached K.number_of self.new.walk self.new.capacity
            at.new.slot at.new.place at.new.passed }
        ensures valid { IsMap K.number_of K.is_valid self.old }
        ensures valid_after { IsMap K.number_of K.is_valid self.new }
    {
        let Some(pair) = self.table.extract_next(at, f) else {
            return None;
        };
        self.len -= 1;
        Some(pair)
    }
}

/// Removes the pairs of a map that a closure picks, one at each step, made by
/// [`IntMap::extract_if`](crate::IntMap::extract_if). At every moment the map has the pairs that
/// were kept and the pairs that the closure wasn't asked about yet, and its length counts these. If
/// the iterator is dropped early, they stay, in their order. They also stay if it is forgotten, but
/// no clause says that.
#[must_use]
pub struct ExtractIf<'a, K: IntKey, V, F, A: Allocator + Copy = Global> {
    map: &'a mut IntMap<K, V, A>,
    at: Progress,
    test: F,
    ghost reached: { IsReached K.number_of map.now.walk map.now.capacity at.slot at.place at.passed },
}

impl<'a, K: IntKey, V: Drop, F: FnMut(K, &mut V) -> bool, A: Allocator + Copy> Iterator
    for ExtractIf<'a, K, V, F, A> {
    ghost use Rattle.intmap.specs.Extracting.{CanExtract, Extracts, extract_rest};

    type Item = (K, V);

    ghost can_next = { CanExtract F.FnMut };

    ghost next_gives = { Extracts F.FnMut };

    ghost remaining = { item_count extract_rest };

    fn next(&mut self) -> Option<(K, V)> {
        self.map.extract_next(&mut self.at, &mut self.test)
    }

    /// The lower bound is 0. The upper bound is the number of pairs that the closure wasn't asked
    /// about yet.
    fn size_hint(&self) -> (usize, Option<usize>)
        ensures bounds { result ≡ (0, Some (length (extract_rest self.now))) }
    {
        (0, Some(self.map.len() - self.at.passed))
    }
}

impl<'a, K: IntKey, V, F: Drop, A: Allocator + Copy> Drop for ExtractIf<'a, K, V, F, A> {
    ghost use Rattle.intmap.specs.Extracting.{extracted_map};
    ghost use Rattle.intmap.specs.Map.{IsMap};

    fn drop(self)
        ensures state { self.exit.0.now ≡ extracted_map self.entry }
        ensures valid_after { IsMap K.number_of K.is_valid self.exit.0.now }
    {
        let ExtractIf { map, at: _, test } = self;
        map.known();
        drop(test);
    }
}

impl<K: IntKey, V, A: Allocator + Copy> IntMap<K, V, A> {
    ghost use Rattle.intmap.specs.Extracting.{CanExtract, extracted_map, extract_kept, extract_lender, extract_rest, extract_test};

    /// An iterator that removes the pairs for which the closure returns true, one at each step, and
    /// returns them, in iteration order. The closure is called with the key and a mutable reference
    /// to the value, and may write the value. Each step asks the closure about the pairs that are
    /// left, up to the first one that it picks. It is asked about no pair twice.
    ///
    /// The closure must be callable at these pairs in this order, each time in the state that the
    /// call before left. Nothing is required of other keys, values and calls.
    ///
    /// The pairs that stay keep their order: those that the closure didn't pick have the values
    /// that it left, and those that weren't reached stay as they are. The capacity, the load factor
    /// and both counts stay, and the map keeps its memory. It allocates nothing and never fails.
    ///
    /// Each step goes again past the pairs of the slot that were asked about before and stay. Where
    /// thousands of keys share a slot that is slow; `retain` goes past each pair once.
    ///
    /// ```text
    /// let mut map = IntMap::from_array(alloc, [(0, 10), (4, 14), (8, 18)])?;
    /// map.extract_if(|_, value| { *value += 1; *value > 14 }).next()    // Some((4, 15))
    /// map                                                               // {0: 11, 8: 18}
    /// ```
    pub fn extract_if<F: FnMut(K, &mut V) -> bool>(&mut self, test: F) -> ExtractIf<'_, K, V, F, A>
        requires { TakesEach (AsksAt F.FnMut) (TakesPairMut F.FnMut) test self.old.walk }
        ensures lender { extract_lender result ≡ self.entry.ghost_name }
        ensures state { extracted_map result ≡ self.old }
        ensures test { extract_test result ≡ test }
        ensures kept { extract_kept result ≡ [] }
        ensures left { extract_rest result ≡ self.old.walk }
        ensures callable { CanExtract F.FnMut result }
        ensures valid { IsMap K.number_of K.is_valid self.old }
    {
        self.known();
        ExtractIf {
            map: self,
            at: Progress::start(),
            test,
        }
    }
}

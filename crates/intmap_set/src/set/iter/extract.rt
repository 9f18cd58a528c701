//! Removal of the members that a closure picks, one by one.
ghost use Rattle.std.specs.Prelude.{◌≡◌, ◌+◌, cond, drop, false, is_some, length, take, [], ◌∷◌, IsTrue, MatchOption, Some};
ghost use Rattle.std.specs.Iterator.{item_count};
ghost use Rattle.intmap.specs.Map.{passed};
ghost use Rattle.intmap.specs.Picking.{ExtractsBehind};
ghost use Rattle.intmap.specs.Taking.{TakesEach};
ghost use Rattle.intmap_set.specs.Retaining.{KeepsKey, PicksKey, TakesKey};
ghost use Rattle.intmap_set.specs.Sets.{IsSet, Updates, as_map, holds};

use crate::set::IntSet;
use intmap::IntKey;
use intmap::iter::Cursor;
use std::alloc::{Allocator, Global};

impl<K: IntKey, A: Allocator + Copy> IntSet<K, A> {
    /// The first member from the cursor on, behind which the cursor moves, or `None` if no member
    /// is left. Then the cursor stays.
    fn step(&self, at: &mut Cursor) -> Option<K>
        ensures first { MatchOption result
            (drop (passed K.number_of (as_map self.now) at.old) self.now.walk ≡ [])
            (λ key. drop (passed K.number_of (as_map self.now) at.old) self.now.walk
            ≡ key ∷ drop (passed K.number_of (as_map self.now) at.new) self.now.walk) }
        ensures passed { passed K.number_of (as_map self.now) at.new
            ≡ passed K.number_of (as_map self.now) at.old + cond (is_some result) 1 0 }
        ensures valid { IsSet K.number_of K.is_valid self.now }
    {
        let Some((key, ())) = self.map.step(at) else {
            return None;
        };
        Some(*key)
    }

    /// Removes the first member from the cursor on and returns it, or returns `None` if no member
    /// is left. The members that stay keep their order.
    fn cut(&mut self, at: &mut Cursor) -> Option<K>
        ensures first { MatchOption result
            (drop (passed K.number_of (as_map self.old) at.old) self.old.walk ≡ [])
            (λ key. drop (passed K.number_of (as_map self.old) at.old) self.old.walk
            ≡ key ∷ drop (passed K.number_of (as_map self.new) at.new) self.new.walk) }
        ensures before { take (passed K.number_of (as_map self.new) at.new) self.new.walk
            ≡ take (passed K.number_of (as_map self.old) at.old) self.old.walk }
        ensures passed { passed K.number_of (as_map self.new) at.new
            ≡ passed K.number_of (as_map self.old) at.old }
        ensures state { self.new ≡ record self.old { walk = self.new.walk } }
        ensures updates { MatchOption result (self.new.walk ≡ self.old.walk)
            (λ key. Updates K.number_of self.old.walk self.new.walk key false) }
        ensures len { length self.new.walk + cond (is_some result) 1 0 ≡ length self.old.walk }
        ensures valid { IsSet K.number_of K.is_valid self.old }
        ensures valid_after { IsSet K.number_of K.is_valid self.new }
    {
        let Some(pair) = self.map.cut(at) else {
            return None;
        };
        Some(pair.0)
    }

    /// Removes the first member that the closure picks, of those from the cursor on, and returns
    /// it. The cursor moves on to the member behind it, and `before` becomes the number of members
    /// before the cursor.
    fn extract_next<F: FnMut(K) -> bool>(
        &mut self,
        at: &mut Cursor,
        before: &mut usize,
        test: &mut F,
    ) -> Option<K>
        requires reached { before.old ≡ passed K.number_of (as_map self.old) at.old }
        requires callable { TakesEach (KeepsKey F.FnMut) (TakesKey F.FnMut) test.old
            (drop before.old self.old.walk) }
        ensures step { ExtractsBehind (PicksKey F.FnMut) test.old self.old.walk before.old result
            test.new self.new.walk before.new }
        ensures state { self.new ≡ record self.old { walk = self.new.walk } }
        ensures updates { MatchOption result (self.new.walk ≡ self.old.walk)
            (λ key. IsTrue (holds K.number_of self.old.walk key)
            × Updates K.number_of self.old.walk self.new.walk key false) }
        ensures len { length self.new.walk + cond (is_some result) 1 0 ≡ length self.old.walk }
        ensures reached { before.new ≡ passed K.number_of (as_map self.new) at.new }
        ensures valid { IsSet K.number_of K.is_valid self.old }
        ensures valid_after { IsSet K.number_of K.is_valid self.new }
    {
        let mut behind = *at;
        while let Some(key) = self.step(&mut behind) {
            if test(key) {
                return self.cut(at);
            }
            *at = behind;
            *before += 1;
        }
        None
    }
}

/// Removes the members of a set that a closure picks, one at each step, made by
/// [`IntSet::extract_if`](crate::IntSet::extract_if). At every moment the set has the members that
/// were kept and the members that the closure wasn't asked about yet, and its length counts these.
/// If the iterator is dropped early, they stay, in their order. They also stay if it is forgotten,
/// but no clause says that.
#[must_use]
pub struct ExtractIf<'a, K: IntKey, F, A: Allocator + Copy = Global> {
    set: &'a mut IntSet<K, A>,
    at: Cursor,
    before: usize,
    test: F,
    ghost reached: { before ≡ passed K.number_of (as_map set.now) at },
}

impl<'a, K: IntKey, F: FnMut(K) -> bool, A: Allocator + Copy> Iterator for ExtractIf<'a, K, F, A> {
    ghost use Rattle.intmap_set.specs.Extracting.{CanExtract, Extracts, extract_rest};

    type Item = K;

    ghost can_next = { CanExtract F.FnMut };

    ghost next_gives = { Extracts K.number_of F.FnMut };

    ghost remaining = { item_count extract_rest };

    fn next(&mut self) -> Option<K> {
        self.set
            .extract_next(&mut self.at, &mut self.before, &mut self.test)
    }

    /// No lower bound. The upper bound is the number of members that the closure wasn't asked about
    /// yet.
    fn size_hint(&self) -> (usize, Option<usize>)
        ensures bounds { result ≡ (0, Some (length (extract_rest self.now))) }
    {
        (0, Some(self.set.len().saturating_sub(self.before)))
    }
}

impl<'a, K: IntKey, F: Drop, A: Allocator + Copy> Drop for ExtractIf<'a, K, F, A> {
    ghost use Rattle.intmap_set.specs.Extracting.{extracted_set};
    ghost use Rattle.intmap_set.specs.Sets.{IsSet};

    fn drop(self)
        ensures state { self.exit.0.now ≡ extracted_set self.entry }
        ensures valid_after { IsSet K.number_of K.is_valid self.exit.0.now }
    {
        let ExtractIf {
            set,
            at: _,
            before: _,
            test,
        } = self;
        set.known();
        drop(test);
    }
}

impl<K: IntKey, A: Allocator + Copy> IntSet<K, A> {
    ghost use Rattle.intmap_set.specs.Extracting.{CanExtract, extracted_set, extract_kept, extract_lender, extract_rest, extract_test};

    /// An iterator that removes the members for which the closure returns true, one at each step,
    /// and returns them, in iteration order. Each step asks the closure about the members that are
    /// left, up to the first one that it picks. It is asked about no member twice.
    ///
    /// The closure must be callable at these members in this order, each time in the state that the
    /// call before left. Nothing is required of other keys and calls.
    ///
    /// The members that stay, those that the closure didn't pick and those that weren't reached,
    /// keep their order. The capacity, the load factor and both counts stay, and the set keeps its
    /// memory. It allocates nothing and never fails.
    ///
    /// For each member that it asks about, a step goes past all members of the slot. Where
    /// thousands share a slot that is slow; `retain` goes past each member once.
    ///
    /// ```text
    /// let mut set = IntSet::from_array(alloc, [0, 1, 4])?;
    /// set.extract_if(|key| key > 0).next()    // Some(4)
    /// set                                     // {0, 1}
    /// ```
    pub fn extract_if<F: FnMut(K) -> bool>(&mut self, test: F) -> ExtractIf<'_, K, F, A>
        requires { TakesEach (KeepsKey F.FnMut) (TakesKey F.FnMut) test self.old.walk }
        ensures lender { extract_lender result ≡ self.entry.ghost_name }
        ensures state { extracted_set result ≡ self.old }
        ensures test { extract_test result ≡ test }
        ensures kept { extract_kept result ≡ [] }
        ensures left { extract_rest result ≡ self.old.walk }
        ensures callable { CanExtract F.FnMut result }
        ensures valid { IsSet K.number_of K.is_valid self.old }
    {
        self.known();
        ExtractIf {
            set: self,
            at: Cursor::start(),
            before: 0,
            test,
        }
    }
}

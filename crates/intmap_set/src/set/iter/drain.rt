//! Removal of members from the front of the walk, one by one.
ghost use Rattle.std.specs.Prelude.{◌≡◌};
ghost use Rattle.std.specs.Iterator.{item_count};
ghost use Rattle.intmap.specs.Walk.{ArePassed};
ghost use Rattle.intmap_set.specs.Sets.{IsSet, paired};

use crate::set::IntSet;
use intmap::IntKey;
use std::alloc::{Allocator, Global};
use std::iter::FusedIterator;

/// Removes one member of a set at each step and returns it, made by
/// [`IntSet::drain`](crate::IntSet::drain). At every moment the set has the members that are left,
/// and its length counts these. If the iterator is dropped early, they stay, in their order. They
/// also stay if it is forgotten, but no clause says that. Dropping it takes constant time, however
/// many are left.
pub struct Drain<'a, K: IntKey, A: Allocator + Copy = Global> {
    set: &'a mut IntSet<K, A>,
    from: usize,
    ghost passed: { ArePassed K.number_of (paired set.now.walk) set.now.capacity from },
}

impl<'a, K: IntKey, A: Allocator + Copy> Iterator for Drain<'a, K, A> {
    ghost use Rattle.intmap_set.specs.Draining.{DrainsFirst, drained_set};

    type Item = K;

    ghost next_gives = { DrainsFirst };

    ghost remaining = { item_count (λ it. (drained_set it).walk) };

    fn next(&mut self) -> Option<K> {
        self.set.take_front(&mut self.from)
    }
}

impl<'a, K: IntKey, A: Allocator + Copy> FusedIterator for Drain<'a, K, A> {}

impl<'a, K: IntKey, A: Allocator + Copy> Drop for Drain<'a, K, A> {
    ghost use Rattle.intmap_set.specs.Draining.{drained_set};
    ghost use Rattle.intmap_set.specs.Sets.{IsSet};

    fn drop(self)
        ensures state { self.exit.0.now ≡ drained_set self.entry }
        ensures valid_after { IsSet K.number_of K.is_valid self.exit.0.now }
    {
        let Drain { set, from: _ } = self;
        set.known();
    }
}

impl<K: IntKey, A: Allocator + Copy> IntSet<K, A> {
    ghost use Rattle.intmap_set.specs.Draining.{drained_set, drain_lender};

    /// An iterator that removes one member at each step and returns it, in iteration order. At
    /// every moment, the members that it returned and then the members that the set has are the
    /// walk at the start. The capacity, the load factor and both counts stay, and the set keeps its
    /// memory. It allocates nothing and never fails. The time of a step doesn't depend on how many
    /// members share a slot.
    ///
    /// ```text
    /// let mut set = IntSet::from_iter(alloc, [0, 4, 8].into_iter())?;
    /// set.drain().next()    // Some(0)
    /// set                   // {4, 8}
    /// ```
    pub fn drain(&mut self) -> Drain<'_, K, A>
        ensures lender { drain_lender result ≡ self.entry.ghost_name }
        ensures state { drained_set result ≡ self.old }
        ensures valid { IsSet K.number_of K.is_valid self.old }
    {
        self.known();
        Drain { set: self, from: 0 }
    }
}

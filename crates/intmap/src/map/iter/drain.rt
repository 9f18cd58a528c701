//! Removal of pairs from the front of the walk, one by one.
ghost use Rattle.std.specs.Prelude.{◌≡◌};
ghost use Rattle.std.specs.Iterator.{item_count};
ghost use Rattle.intmap_table.specs.Fronts.{IsFront};
ghost use Rattle.intmap.specs.Map.{IsMap};

use crate::map::IntMap;
use intmap_table::IntKey;
use intmap_table::table::front::Front;
use std::alloc::{Allocator, Global};

/// Removes one pair of a map at each step and returns it, made by
/// [`IntMap::drain`](crate::IntMap::drain). At every moment the map has the pairs that are left,
/// and its length counts these. If the iterator is dropped early, they stay, in their order. They
/// also stay if it is forgotten, but no clause says that. Dropping it takes constant time, however
/// many are left.
pub struct Drain<'a, K: IntKey, V, A: Allocator + Copy = Global> {
    pub(crate) map: &'a mut IntMap<K, V, A>,
    pub(crate) front: Front,
    ghost passed: { IsFront K.number_of map.now.walk map.now.capacity front },
}

impl<'a, K: IntKey, V: Drop, A: Allocator + Copy> Iterator for Drain<'a, K, V, A> {
    ghost use Rattle.intmap.specs.Draining.{DrainsFirst, drain_rest};

    type Item = (K, V);

    ghost next_gives = { DrainsFirst };

    ghost remaining = { item_count drain_rest };

    #[inline]
    fn next(&mut self) -> Option<(K, V)> {
        self.map.take_next(&mut self.front)
    }
}

impl<'a, K: IntKey, V, A: Allocator + Copy> Drop for Drain<'a, K, V, A> {
    ghost use Rattle.intmap.specs.Draining.{drained_map};
    ghost use Rattle.intmap.specs.Map.{IsMap};

    fn drop(self)
        ensures state { self.exit.0.now ≡ drained_map self.entry }
        ensures valid_after { IsMap K.number_of K.is_valid self.exit.0.now }
    {
        let Drain { map, front: _ } = self;
        map.known();
    }
}

impl<K: IntKey, V, A: Allocator + Copy> IntMap<K, V, A> {
    ghost use Rattle.intmap.specs.Draining.{drained_map, drain_lender};

    /// An iterator that removes one pair at each step and returns it, in iteration order. At every
    /// moment, the pairs that it returned and then the pairs that the map has are the walk at the
    /// start. The capacity, the load factor and both counts stay, and the map keeps its memory.
    /// It allocates nothing and never fails.
    ///
    /// After each step the other pairs of the slot are in their order, so that the map has them
    /// even if the iterator is forgotten. The time of a step doesn't depend on how many share a
    /// slot.
    ///
    /// ```text
    /// let mut map = IntMap::from_array(alloc, [(0, 10), (4, 14), (8, 18)])?;
    /// map.drain().next()    // Some((0, 10))
    /// map                   // {4: 14, 8: 18}
    /// ```
    pub fn drain(&mut self) -> Drain<'_, K, V, A>
        ensures lender { drain_lender result ≡ self.entry.ghost_name }
        ensures state { drained_map result ≡ self.old }
        ensures valid { IsMap K.number_of K.is_valid self.old }
    {
        self.known();
        let front = self.table.front();
        Drain { map: self, front }
    }
}

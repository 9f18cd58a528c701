//! The iterators of a set. Each goes through the slots in turn, and through each slot from front to
//! back.
ghost use Rattle.std.specs.Prelude.{◌≡◌};
ghost use Rattle.intmap.specs.Iterating.{GivesEach, ShowsEach, shown};
ghost use Rattle.intmap_set.specs.Sets.{IsSet};

mod combined;
mod drain;
mod extract;
mod traits;

use crate::set::IntSet;
pub use combined::{Difference, Intersection, SymmetricDifference, Union};
pub use drain::Drain;
pub use extract::ExtractIf;
use intmap::IntKey;
pub use intmap::iter::{IntoKeys, Keys};
use std::alloc::Allocator;

impl<K: IntKey, A: Allocator + Copy> IntSet<K, A> {
    /// An iterator over the members by reference, in iteration order. Neither this call nor a step
    /// of the iterator fails.
    ///
    /// ```text
    /// let set = IntSet::from_iter(alloc, [0, 1, 4].into_iter())?;
    /// set.iter()    // [0, 4, 1]
    /// ```
    pub fn iter(&self) -> Keys<'_, K, (), A>
        ensures walk { result ≡ self.now.walk }
        ensures runs { ShowsEach (shown {X = K}) }
        ensures valid { IsSet K.number_of K.is_valid self.now }
    {
        self.map.keys()
    }
}

impl<'a, K: IntKey, A: Allocator + Copy> IntoIterator for &'a IntSet<K, A> {
    type Item = &'a K;

    type IntoIter = Keys<'a, K, (), A>;

    ghost into_iter_gives = { λ set it. it ≡ set.now.walk };

    /// The members by reference, as by [`iter`](IntSet::iter).
    fn into_iter(self) -> Keys<'a, K, (), A>
        ensures into_iter_gives { result ≡ self.now.walk }
        ensures valid { IsSet K.number_of K.is_valid self.now }
    {
        self.iter()
    }
}

impl<K: IntKey, A: Allocator + Copy> IntoIterator for IntSet<K, A> {
    type Item = K;

    type IntoIter = IntoKeys<K, (), A>;

    ghost into_iter_gives = { λ set it. it ≡ set.walk };

    /// An iterator over the members by value, in iteration order. Neither this call nor a step of
    /// the iterator fails. The time of a step doesn't depend on how many members share a slot.
    fn into_iter(self) -> IntoKeys<K, (), A>
        ensures into_iter_gives { result ≡ self.walk }
        ensures runs { GivesEach K }
    {
        self.map.into_keys()
    }
}

//! Equality of vectors: the same value at every place.
ghost use Rattle.intmap_sparse.specs.Vectors.{vectors_equal};
ghost use Rattle.intmap_sparse.specs.EqualityLaws.{IsPartialEquivalence-vectors_equal, IsEquivalence-vectors_equal};

use crate::vector::SparseVec;
use std::alloc::Allocator;

impl<A: Allocator + Copy> PartialEq for SparseVec<A> {
    ghost eq = { vectors_equal };

    ghost laws = { IsPartialEquivalence-vectors_equal };

    /// Whether both vectors have the same value at every place. The order of the walks and the
    /// number of slots don't matter. It never fails.
    ///
    /// ```text
    /// let mut first = SparseVec::new(alloc)?;
    /// first.set(0, 1)?;
    /// first.set(4, 2)?;
    /// let mut second = SparseVec::new(alloc)?;
    /// second.set(4, 2)?;
    /// second.set(0, 1)?;
    /// second.set(8, 3)?;
    /// first == second    // false
    /// second.set(8, 0)?;
    /// first == second    // true
    /// ```
    fn eq(&self, other: &SparseVec<A>) -> bool {
        self.values == other.values
    }
}

impl<A: Allocator + Copy> Eq for SparseVec<A> {
    ghost laws = { IsEquivalence-vectors_equal };
}

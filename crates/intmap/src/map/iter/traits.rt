//! Clones and text of the iterators by reference, and `FusedIterator` for all iterators over pairs,
//! keys or values but `ExtractIf`: once they are at the end, they stay there.
ghost use Rattle.std.specs.Prelude.{◌≡◌, ⊤};

use crate::map::iter::{
    Drain, IntoIter, IntoKeys, IntoValues, Iter, IterMut, Keys, Values, ValuesMut,
};
use intmap_table::IntKey;
use std::alloc::{AllocError, Allocator};
use std::fmt;
use std::iter::FusedIterator;

impl<'a, K: IntKey, V, A: Allocator + Copy> Clone for Iter<'a, K, V, A> {
    ghost is_clone = { λ it made. made ≡ it };

    ghost is_infallible = { λ _. ⊤ };

    /// A second iterator over the pairs that are left. It allocates nothing and never fails.
    ///
    /// ```text
    /// let map = IntMap::from_array(alloc, [(0, 10), (1, 11), (4, 14)])?;
    /// let mut pairs = map.iter();
    /// pairs.clone()?.next()    // Some((0, 10))
    /// pairs                    // [(0, 10), (4, 14), (1, 11)]
    /// ```
    fn clone(&self) -> Result<Iter<'a, K, V, A>, AllocError> {
        Ok(Iter {
            pairs: self.pairs.clone()?,
        })
    }
}

impl<'a, K: IntKey, V, A: Allocator + Copy> Clone for Keys<'a, K, V, A> {
    ghost is_clone = { λ it made. made ≡ it };

    ghost is_infallible = { λ _. ⊤ };

    /// A second iterator over the keys that are left. It allocates nothing and never fails.
    fn clone(&self) -> Result<Keys<'a, K, V, A>, AllocError> {
        Ok(Keys {
            pairs: self.pairs.clone()?,
        })
    }
}

impl<'a, K: IntKey, V, A: Allocator + Copy> Clone for Values<'a, K, V, A> {
    ghost is_clone = { λ it made. made ≡ it };

    ghost is_infallible = { λ _. ⊤ };

    /// A second iterator over the values that are left. It allocates nothing and never fails.
    fn clone(&self) -> Result<Values<'a, K, V, A>, AllocError> {
        Ok(Values {
            pairs: self.pairs.clone()?,
        })
    }
}

impl<'a, K: IntKey + fmt::Debug, V: fmt::Debug, A: Allocator + Copy> fmt::Debug
    for Iter<'a, K, V, A> {
    /// Writes the pairs that are left, as `[(21, 'a'), (3, 'b')]`. The iterator stays as it is. It
    /// fails only if writing fails.
    fn fmt<W: fmt::Write>(&self, f: &mut fmt::Formatter<W>) -> fmt::Result {
        f.debug_list().entries(self.clone().unwrap()).finish()
    }
}

impl<'a, K: IntKey + fmt::Debug, V, A: Allocator + Copy> fmt::Debug for Keys<'a, K, V, A> {
    /// Writes the keys that are left, as `[21, 3]`. The iterator stays as it is. It fails only if
    /// writing fails.
    fn fmt<W: fmt::Write>(&self, f: &mut fmt::Formatter<W>) -> fmt::Result {
        f.debug_list().entries(self.clone().unwrap()).finish()
    }
}

impl<'a, K: IntKey, V: fmt::Debug, A: Allocator + Copy> fmt::Debug for Values<'a, K, V, A> {
    /// Writes the values that are left, as `['a', 'b']`. The iterator stays as it is. It fails only
    /// if writing fails.
    fn fmt<W: fmt::Write>(&self, f: &mut fmt::Formatter<W>) -> fmt::Result {
        f.debug_list().entries(self.clone().unwrap()).finish()
    }
}

impl<'a, K: IntKey, V, A: Allocator + Copy> FusedIterator for Iter<'a, K, V, A> {}

impl<'a, K: IntKey, V, A: Allocator + Copy> FusedIterator for Keys<'a, K, V, A> {}

impl<'a, K: IntKey, V, A: Allocator + Copy> FusedIterator for Values<'a, K, V, A> {}

impl<'a, K: IntKey, V, A: Allocator + Copy> FusedIterator for IterMut<'a, K, V, A> {}

impl<'a, K: IntKey, V, A: Allocator + Copy> FusedIterator for ValuesMut<'a, K, V, A> {}

impl<'a, K: IntKey, V: Drop, A: Allocator + Copy> FusedIterator for Drain<'a, K, V, A> {}

impl<K: IntKey, V: Drop, A: Allocator + Copy> FusedIterator for IntoIter<K, V, A> {}

impl<K: IntKey, V: Drop, A: Allocator + Copy> FusedIterator for IntoKeys<K, V, A> {}

impl<K: IntKey, V: Drop, A: Allocator + Copy> FusedIterator for IntoValues<K, V, A> {}

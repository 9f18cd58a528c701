//! Clones and text of the iterators over two sets, and `FusedIterator` for them: once they are at
//! the end, they stay there.
ghost use Rattle.std.specs.Prelude.{◌≡◌, ⊤};

use crate::set::iter::{Difference, Intersection, SymmetricDifference, Union};
use intmap::IntKey;
use std::alloc::{AllocError, Allocator};
use std::fmt;
use std::iter::FusedIterator;

impl<'a, K: IntKey, A: Allocator + Copy> Clone for Difference<'a, K, A> {
    ghost is_clone = { λ it made. made ≡ it };

    ghost is_infallible = { λ _. ⊤ };

    /// A second iterator over the members that are left. It allocates nothing and never fails.
    fn clone(&self) -> Result<Difference<'a, K, A>, AllocError> {
        Ok(Difference {
            keys: self.keys.clone()?,
            other: self.other,
        })
    }
}

impl<'a, K: IntKey, A: Allocator + Copy> Clone for Intersection<'a, K, A> {
    ghost is_clone = { λ it made. made ≡ it };

    ghost is_infallible = { λ _. ⊤ };

    /// A second iterator over the members that are left. It allocates nothing and never fails.
    fn clone(&self) -> Result<Intersection<'a, K, A>, AllocError> {
        Ok(Intersection {
            keys: self.keys.clone()?,
            other: self.other,
        })
    }
}

impl<'a, K: IntKey, A: Allocator + Copy> Clone for Union<'a, K, A> {
    ghost is_clone = { λ it made. made ≡ it };

    ghost is_infallible = { λ _. ⊤ };

    /// A second iterator over the members that are left. It allocates nothing and never fails.
    fn clone(&self) -> Result<Union<'a, K, A>, AllocError> {
        Ok(Union {
            first: self.first.clone()?,
            second: self.second.clone()?,
        })
    }
}

impl<'a, K: IntKey, A: Allocator + Copy> Clone for SymmetricDifference<'a, K, A> {
    ghost is_clone = { λ it made. made ≡ it };

    ghost is_infallible = { λ _. ⊤ };

    /// A second iterator over the members that are left. It allocates nothing and never fails.
    fn clone(&self) -> Result<SymmetricDifference<'a, K, A>, AllocError> {
        Ok(SymmetricDifference {
            first: self.first.clone()?,
            second: self.second.clone()?,
        })
    }
}

impl<'a, K: IntKey + fmt::Debug, A: Allocator + Copy> fmt::Debug for Difference<'a, K, A> {
    /// Writes the members that are left, as `[21, 3]`. The iterator stays as it is. It fails only
    /// if writing fails.
    fn fmt<W: fmt::Write>(&self, f: &mut fmt::Formatter<W>) -> fmt::Result {
        f.debug_list().entries(self.clone().unwrap()).finish()
    }
}

impl<'a, K: IntKey + fmt::Debug, A: Allocator + Copy> fmt::Debug for Intersection<'a, K, A> {
    /// Writes the members that are left, as `[21, 3]`. The iterator stays as it is. It fails only
    /// if writing fails.
    fn fmt<W: fmt::Write>(&self, f: &mut fmt::Formatter<W>) -> fmt::Result {
        f.debug_list().entries(self.clone().unwrap()).finish()
    }
}

impl<'a, K: IntKey + fmt::Debug, A: Allocator + Copy> fmt::Debug for Union<'a, K, A> {
    /// Writes the members that are left, as `[21, 3]`. The iterator stays as it is. It fails only
    /// if writing fails.
    fn fmt<W: fmt::Write>(&self, f: &mut fmt::Formatter<W>) -> fmt::Result {
        f.debug_list().entries(self.clone().unwrap()).finish()
    }
}

impl<'a, K: IntKey + fmt::Debug, A: Allocator + Copy> fmt::Debug for SymmetricDifference<'a, K, A> {
    /// Writes the members that are left, as `[21, 3]`. The iterator stays as it is. It fails only
    /// if writing fails.
    fn fmt<W: fmt::Write>(&self, f: &mut fmt::Formatter<W>) -> fmt::Result {
        f.debug_list().entries(self.clone().unwrap()).finish()
    }
}

impl<'a, K: IntKey, A: Allocator + Copy> FusedIterator for Difference<'a, K, A> {}

impl<'a, K: IntKey, A: Allocator + Copy> FusedIterator for Intersection<'a, K, A> {}

impl<'a, K: IntKey, A: Allocator + Copy> FusedIterator for Union<'a, K, A> {}

impl<'a, K: IntKey, A: Allocator + Copy> FusedIterator for SymmetricDifference<'a, K, A> {}

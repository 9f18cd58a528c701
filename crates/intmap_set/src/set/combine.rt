//! Two sets: their union, their intersection, their differences, and whether one is within another.
ghost use Rattle.std.specs.Prelude.{◌≡◌, ◌↔◌, IsTrue};
ghost use Rattle.intmap.specs.Iterating.{ShowsEach, shown};
ghost use Rattle.intmap_set.specs.Sets.{IsSet};
ghost use Rattle.intmap_set.specs.Combined.{IsSubset, IsDisjoint, IsDifference, IsIntersection, IsUnion, IsSymmetricDifference, difference_of, intersection_of, union_of, symmetric_difference_of};

use crate::set::IntSet;
use crate::set::iter::{Difference, Intersection, SymmetricDifference, Union};
use intmap::IntKey;
use std::alloc::Allocator;

impl<K: IntKey, A: Allocator + Copy> IntSet<K, A> {
    /// An iterator over the members of this set that are absent from `other`, in the order of this
    /// set. A step looks up the next members of this set in `other`. Neither this call nor a step
    /// fails.
    ///
    /// It makes no set. [`IntSet::from_iter`] makes a set of these members, as below, and may fail.
    /// The same holds for the iterators of the other three calls.
    ///
    /// ```text
    /// let first = IntSet::from_iter(alloc, [1, 2, 3].into_iter())?;
    /// let second = IntSet::from_iter(alloc, [2, 3, 4].into_iter())?;
    /// first.difference(&second)                                       // [1]
    /// IntSet::from_iter(alloc, first.difference(&second).copied())    // Ok({1})
    /// ```
    pub fn difference<'a>(&'a self, other: &'a IntSet<K, A>) -> Difference<'a, K, A>
        ensures walk { result ≡ difference_of K.number_of self.now.walk other.now.walk }
        ensures members { IsDifference K.number_of self.now.walk other.now.walk result }
        ensures runs { ShowsEach (shown {X = K}) }
        ensures valid { IsSet K.number_of K.is_valid self.now }
        ensures valid_other { IsSet K.number_of K.is_valid other.now }
    {
        other.known();
        Difference {
            keys: self.iter(),
            other,
        }
    }

    /// An iterator over the members that both sets have, in the order of the set with fewer
    /// members, or of this one if both have the same number. A step looks up the next members of
    /// that set in the other. Neither this call nor a step fails.
    ///
    /// ```text
    /// let first = IntSet::from_iter(alloc, [1, 2, 3].into_iter())?;
    /// let second = IntSet::from_iter(alloc, [2, 3, 4].into_iter())?;
    /// first.intersection(&second)    // [2, 3]
    /// ```
    pub fn intersection<'a>(&'a self, other: &'a IntSet<K, A>) -> Intersection<'a, K, A>
        ensures walk { result ≡ intersection_of K.number_of self.now.walk other.now.walk }
        ensures members { IsIntersection K.number_of self.now.walk other.now.walk result }
        ensures runs { ShowsEach (shown {X = K}) }
        ensures valid { IsSet K.number_of K.is_valid self.now }
        ensures valid_other { IsSet K.number_of K.is_valid other.now }
    {
        if other.len() < self.len() {
            return Intersection {
                keys: other.iter(),
                other: self,
            };
        }
        Intersection {
            keys: self.iter(),
            other,
        }
    }

    /// An iterator over the members of either set, each once. It first gives the members of the set
    /// with more members, or of this one if both have the same number, and then those that only the
    /// other has. Only the latter are looked up. Neither this call nor a step fails.
    ///
    /// ```text
    /// let first = IntSet::from_iter(alloc, [1, 2, 3].into_iter())?;
    /// let second = IntSet::from_iter(alloc, [2, 3, 4].into_iter())?;
    /// first.union(&second)    // [1, 2, 3, 4]
    /// ```
    pub fn union<'a>(&'a self, other: &'a IntSet<K, A>) -> Union<'a, K, A>
        ensures walk { result ≡ union_of K.number_of self.now.walk other.now.walk }
        ensures members { IsUnion K.number_of self.now.walk other.now.walk result }
        ensures runs { ShowsEach (shown {X = K}) }
        ensures valid { IsSet K.number_of K.is_valid self.now }
        ensures valid_other { IsSet K.number_of K.is_valid other.now }
    {
        if self.len() < other.len() {
            return Union {
                first: other.iter(),
                second: self.difference(other),
            };
        }
        Union {
            first: self.iter(),
            second: other.difference(self),
        }
    }

    /// An iterator over the members that exactly one of the sets has: first those that only this
    /// set has, and then those that only `other` has. Neither this call nor a step fails.
    ///
    /// ```text
    /// let first = IntSet::from_iter(alloc, [1, 2, 3].into_iter())?;
    /// let second = IntSet::from_iter(alloc, [2, 3, 4].into_iter())?;
    /// first.symmetric_difference(&second)    // [1, 4]
    /// ```
    pub fn symmetric_difference<'a>(
        &'a self,
        other: &'a IntSet<K, A>,
    ) -> SymmetricDifference<'a, K, A>
        ensures walk { result ≡ symmetric_difference_of K.number_of self.now.walk other.now.walk }
        ensures members { IsSymmetricDifference K.number_of self.now.walk other.now.walk result }
        ensures runs { ShowsEach (shown {X = K}) }
        ensures valid { IsSet K.number_of K.is_valid self.now }
        ensures valid_other { IsSet K.number_of K.is_valid other.now }
    {
        SymmetricDifference {
            first: self.difference(other),
            second: other.difference(self),
        }
    }

    /// Whether each member of this set is one of `other`. It looks up the members in turn, up to
    /// the first that is absent from `other`. It never fails.
    ///
    /// ```text
    /// let first = IntSet::from_iter(alloc, [1, 2].into_iter())?;
    /// let second = IntSet::from_iter(alloc, [1, 2, 3].into_iter())?;
    /// first.is_subset(&second)      // true
    /// first.is_superset(&second)    // false
    /// first.is_disjoint(&second)    // false
    /// ```
    pub fn is_subset(&self, other: &IntSet<K, A>) -> bool
        ensures value { IsTrue result ↔ IsSubset K.number_of self.now.walk other.now.walk }
        ensures valid { IsSet K.number_of K.is_valid self.now }
        ensures valid_other { IsSet K.number_of K.is_valid other.now }
    {
        self.difference(other).next().is_none()
    }

    /// Whether each member of `other` is one of this set. It never fails.
    pub fn is_superset(&self, other: &IntSet<K, A>) -> bool
        ensures value { IsTrue result ↔ IsSubset K.number_of other.now.walk self.now.walk }
        ensures valid { IsSet K.number_of K.is_valid self.now }
        ensures valid_other { IsSet K.number_of K.is_valid other.now }
    {
        other.is_subset(self)
    }

    /// Whether no member of this set is one of `other`. It looks up the members of the smaller set
    /// in the other, up to the first that both have. It never fails.
    pub fn is_disjoint(&self, other: &IntSet<K, A>) -> bool
        ensures value { IsTrue result ↔ IsDisjoint K.number_of self.now.walk other.now.walk }
        ensures valid { IsSet K.number_of K.is_valid self.now }
        ensures valid_other { IsSet K.number_of K.is_valid other.now }
    {
        self.intersection(other).next().is_none()
    }
}

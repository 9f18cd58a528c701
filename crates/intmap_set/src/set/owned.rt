//! New sets that are made of two, and a set that takes the members of another.
ghost use Rattle.std.specs.Prelude.{◌≡◌, ◌*◌, ◌/◌, ◌^◌, ◌<◌, ◌≤◌, length, OnOk, IfOk, IfErr, IsOk, MatchResult};
ghost use Rattle.std.specs.Iterator.{IsFinite};
ghost use Rattle.intmap.specs.Room.{HasRoom};
ghost use Rattle.intmap_set.specs.Sets.{IsSet, as_map, empty_set, load_factor};
ghost use Rattle.intmap_set.specs.Combined.{IsDifference, IsIntersection, IsUnion, IsSymmetricDifference, difference_of, intersection_of, union_of, symmetric_difference_of};
ghost use Rattle.intmap_set.specs.Extending.{Extends, IsExtended, MayStop, StopsAmong};

use crate::set::IntSet;
use intmap::{Cause, IntKey, RefusedPair};
use std::alloc::Allocator;

impl<K: IntKey, A: Allocator + Copy> IntSet<K, A> {
    /// A new set with the members of either set. It has 4 slots at first, and grows as insertions
    /// of the members that [`union`](IntSet::union) gives, in their order, make it grow. Its counts
    /// are those of these insertions. Both sets stay as they are, with their counts: look-ups in
    /// them aren't counted.
    ///
    /// It fails with [`Cause::Memory`] if an allocation fails. It fails with [`Cause::TooLarge`]
    /// only if the members of the union exceed 909 thousandths of 2^63 slots. A failed call drops
    /// what it made. The same holds for the other three calls. As a difference and an intersection
    /// have no more members than one of the sets, these two never fail with [`Cause::TooLarge`].
    ///
    /// ```text
    /// let first = IntSet::from_iter(alloc, [1, 2, 3].into_iter())?;
    /// let second = IntSet::from_iter(alloc, [2, 3, 4].into_iter())?;
    /// first.to_union(alloc, &second)    // Ok({2, 4, 1, 3})
    /// ```
    pub fn to_union(&self, alloc: A, other: &IntSet<K, A>) -> Result<IntSet<K, A>, Cause>
        ensures members { IfOk result (λ made.
            IsUnion K.number_of self.now.walk other.now.walk made.walk) }
        ensures extended { IfOk result (IsExtended K.number_of K.is_valid (empty_set 4)
            (union_of K.number_of self.now.walk other.now.walk)) }
        ensures len { IfOk result (λ made. length made.walk
            ≡ length (union_of K.number_of self.now.walk other.now.walk)) }
        ensures too_large { IfErr result (λ cause. cause ≡ Cause.TooLarge → load_factor
            < length (union_of K.number_of self.now.walk other.now.walk) * 1000 / 2 ^ 63) }
        ensures valid { IsSet K.number_of K.is_valid self.now }
        ensures valid_other { IsSet K.number_of K.is_valid other.now }
        ensures valid_after { IfOk result (IsSet K.number_of K.is_valid) }
    {
        IntSet::collected(alloc, self.union(other).copied())
    }

    /// A new set with the members that both sets have, made of
    /// [`intersection`](IntSet::intersection) as [`to_union`](IntSet::to_union) makes one of
    /// `union`. It fails only with [`Cause::Memory`], if an allocation fails.
    ///
    /// ```text
    /// let first = IntSet::from_iter(alloc, [1, 2, 3].into_iter())?;
    /// let second = IntSet::from_iter(alloc, [2, 3, 4].into_iter())?;
    /// first.to_intersection(alloc, &second)    // Ok({2, 3})
    /// ```
    pub fn to_intersection(&self, alloc: A, other: &IntSet<K, A>) -> Result<IntSet<K, A>, Cause>
        ensures members { IfOk result (λ made.
            IsIntersection K.number_of self.now.walk other.now.walk made.walk) }
        ensures extended { IfOk result (IsExtended K.number_of K.is_valid (empty_set 4)
            (intersection_of K.number_of self.now.walk other.now.walk)) }
        ensures len { IfOk result (λ made. length made.walk
            ≡ length (intersection_of K.number_of self.now.walk other.now.walk)) }
        ensures memory { IfErr result (λ cause. cause ≡ Cause.Memory) }
        ensures valid { IsSet K.number_of K.is_valid self.now }
        ensures valid_other { IsSet K.number_of K.is_valid other.now }
        ensures valid_after { IfOk result (IsSet K.number_of K.is_valid) }
    {
        IntSet::collected(alloc, self.intersection(other).copied())
    }

    /// A new set with the members of this set that are absent from `other`, made of
    /// [`difference`](IntSet::difference) as [`to_union`](IntSet::to_union) makes one of `union`.
    /// It fails only with [`Cause::Memory`], if an allocation fails.
    ///
    /// ```text
    /// let first = IntSet::from_iter(alloc, [1, 2, 3].into_iter())?;
    /// let second = IntSet::from_iter(alloc, [2, 3, 4].into_iter())?;
    /// first.to_difference(alloc, &second)    // Ok({1})
    /// ```
    pub fn to_difference(&self, alloc: A, other: &IntSet<K, A>) -> Result<IntSet<K, A>, Cause>
        ensures members { IfOk result (λ made.
            IsDifference K.number_of self.now.walk other.now.walk made.walk) }
        ensures extended { IfOk result (IsExtended K.number_of K.is_valid (empty_set 4)
            (difference_of K.number_of self.now.walk other.now.walk)) }
        ensures len { IfOk result (λ made. length made.walk
            ≡ length (difference_of K.number_of self.now.walk other.now.walk)) }
        ensures memory { IfErr result (λ cause. cause ≡ Cause.Memory) }
        ensures valid { IsSet K.number_of K.is_valid self.now }
        ensures valid_other { IsSet K.number_of K.is_valid other.now }
        ensures valid_after { IfOk result (IsSet K.number_of K.is_valid) }
    {
        IntSet::collected(alloc, self.difference(other).copied())
    }

    /// A new set with the members that exactly one of the sets has, made of
    /// [`symmetric_difference`](IntSet::symmetric_difference) as [`to_union`](IntSet::to_union)
    /// makes one of `union`. It fails as `to_union` does, by the number of these members.
    ///
    /// ```text
    /// let first = IntSet::from_iter(alloc, [1, 2, 3].into_iter())?;
    /// let second = IntSet::from_iter(alloc, [2, 3, 4].into_iter())?;
    /// first.to_symmetric_difference(alloc, &second)    // Ok({4, 1})
    /// ```
    pub fn to_symmetric_difference(
        &self,
        alloc: A,
        other: &IntSet<K, A>,
    ) -> Result<IntSet<K, A>, Cause>
        ensures members { IfOk result (λ made.
            IsSymmetricDifference K.number_of self.now.walk other.now.walk made.walk) }
        ensures extended { IfOk result (IsExtended K.number_of K.is_valid (empty_set 4)
            (symmetric_difference_of K.number_of self.now.walk other.now.walk)) }
        ensures len { IfOk result (λ made. length made.walk
            ≡ length (symmetric_difference_of K.number_of self.now.walk other.now.walk)) }
        ensures too_large { IfErr result (λ cause. cause ≡ Cause.TooLarge → load_factor
            < length (symmetric_difference_of K.number_of self.now.walk other.now.walk) * 1000
            / 2 ^ 63) }
        ensures valid { IsSet K.number_of K.is_valid self.now }
        ensures valid_other { IsSet K.number_of K.is_valid other.now }
        ensures valid_after { IfOk result (IsSet K.number_of K.is_valid) }
    {
        IntSet::collected(alloc, self.symmetric_difference(other).copied())
    }

    /// Inserts the members of `other` in turn, in iteration order, each as
    /// [`insert`](IntSet::insert) does. The other set stays as it is.
    ///
    /// It stops at the first insertion that fails, as [`extend`](IntSet::extend) does, and returns
    /// that member with the cause and the number of members before it. Those stay members of this
    /// set. The search for each member that was tried is counted, also for the one that failed.
    ///
    /// ```text
    /// let mut set = IntSet::from_iter(alloc, [1, 2].into_iter())?;
    /// let other = IntSet::from_iter(alloc, [2, 3].into_iter())?;
    /// set.extend_from_set(&other)?;
    /// set    // {2, 1, 3}
    /// ```
    pub fn extend_from_set(&mut self, other: &IntSet<K, A>) -> Result<(), RefusedPair<K, ()>>
        ensures updates { OnOk result
            (IsUnion K.number_of self.old.walk other.now.walk self.new.walk) }
        ensures len { OnOk result (length self.new.walk
            ≡ length (union_of K.number_of self.old.walk other.now.walk)) }
        ensures extended { OnOk result (IsExtended K.number_of K.is_valid self.old
            other.now.walk self.new) }
        ensures capacity { OnOk result (self.old.capacity ≤ self.new.capacity) }
        ensures has_room { HasRoom K.number_of (as_map self.old) (length other.now.walk)
            → IsOk result }
        ensures stops { IfErr result (λ refused. StopsAmong K.number_of K.is_valid self.old
            other.now.walk refused self.new) }
        ensures valid { IsSet K.number_of K.is_valid self.old }
        ensures valid_other { IsSet K.number_of K.is_valid other.now }
        ensures valid_after { IsSet K.number_of K.is_valid self.new }
    {
        other.known();
        self.extend(other.iter().copied())
    }

    /// A set of the iterator's keys, which begins with 4 slots. The iterator must end.
    fn collected<I: Iterator<Item = K> + Drop>(alloc: A, iter: I) -> Result<IntSet<K, A>, Cause>
        requires can { I.can_next iter }
        requires ends { IsFinite (I.remaining iter) }
        ensures collects { MatchResult result
            (λ made. Extends K.number_of K.is_valid I.next_gives iter (empty_set 4) made)
            (λ cause. MayStop K.number_of K.is_valid I.next_gives iter (empty_set 4) cause) }
        ensures valid_after { IfOk result (IsSet K.number_of K.is_valid) }
    {
        let mut set = IntSet::new(alloc)?;
        match set.extend(iter) {
            Ok(()) => Ok(set),
            Err(refused) => Err(refused.cause),
        }
    }
}

//! Sets made of many keys.
ghost use Rattle.std.specs.Prelude.{◌≡◌, ℕ, ◌+◌, ◌^◌, ◌<◌, ◌≤◌, ◌⊎◌, ◌||◌, length, max, OnOk, IfOk, IfErr, IsOk, MatchResult};
ghost use Rattle.std.specs.Iterator.{IsFinite, size};
ghost use Rattle.std.specs.Iterator.Runs.{WholeRun};
ghost use Rattle.intmap.specs.Growth.{IsLeastPower};
ghost use Rattle.intmap.specs.Map.{least_capacity};
ghost use Rattle.intmap.specs.Room.{HasRoom};
ghost use Rattle.intmap_set.specs.Sets.{IsSet, as_map, empty_set, holds};
ghost use Rattle.intmap_set.specs.Extending.{Extends, ExtendsUpTo, MayStop, IsCollected, LeavesRange};

use crate::set::IntSet;
use intmap::{Cause, IntKey, RefusedPair};
use std::alloc::Allocator;

impl<K: IntKey, A: Allocator + Copy> IntSet<K, A> {
    /// Inserts the iterator's keys in turn, each as [`insert`](IntSet::insert) does. The table
    /// grows only as these insertions make it grow: nothing is reserved ahead. The iterator must be
    /// ready for a call of `next`, and must end.
    ///
    /// It stops at the first insertion that fails, and returns that key with the cause and the
    /// number of keys before it. Those keys stay members. The search for each key that was tried is
    /// counted, also for the one that failed. The iterator is dropped, with the keys that it hasn't
    /// given. With `?`, a caller that returns a [`Cause`] drops the key.
    ///
    /// ```text
    /// let mut set = IntSet::from_iter(alloc, [1, 2].into_iter())?;
    /// let other = IntSet::from_iter(alloc, [2, 3].into_iter())?;
    /// set.extend(other.iter().copied())?;
    /// set    // {2, 1, 3}
    /// ```
    pub fn extend<I: Iterator<Item = K> + Drop>(
        &mut self,
        iter: I,
    ) -> Result<(), RefusedPair<K, ()>>
        requires can { I.can_next iter }
        requires ends { IsFinite (I.remaining iter) }
        ensures extends { OnOk result
            (Extends K.number_of K.is_valid I.next_gives iter self.old self.new) }
        ensures runs { OnOk result (WholeRun I.next_gives iter (λ run. (q : K)
            → holds K.number_of self.new.walk q
            ≡ (holds K.number_of self.old.walk q || holds K.number_of run.items q))) }
        ensures len { OnOk result
            (length self.new.walk ≤ length self.old.walk + size (I.remaining iter)) }
        ensures has_room { HasRoom K.number_of (as_map self.old) (size (I.remaining iter))
            → IsOk result }
        ensures stops { IfErr result (λ refused.
            ExtendsUpTo K.number_of K.is_valid I.next_gives iter self.old refused self.new) }
        ensures valid { IsSet K.number_of K.is_valid self.old }
        ensures valid_after { IsSet K.number_of K.is_valid self.new }
    {
        self.known();
        let mut applied: usize = 0;
        for key in iter {
            if let Err(cause) = self.insert(key) {
                return Err(RefusedPair {
                    key,
                    value: (),
                    applied,
                    cause,
                });
            }
            applied = applied.saturating_add(1);
        }
        Ok(())
    }

    /// A set of the iterator's keys: [`with_capacity`](IntSet::with_capacity) of the lower bound of
    /// its `size_hint`, and then [`extend`](IntSet::extend), which counts what it compares. The
    /// iterator must be ready for a call of `next`, and must end.
    ///
    /// It fails if either call fails, with the same cause. A failed call drops everything.
    ///
    /// ```text
    /// let first = IntSet::from_iter(alloc, [1, 2].into_iter())?;
    /// let second = IntSet::from_iter(alloc, [2, 3].into_iter())?;
    /// IntSet::from_iter(alloc, first.union(&second).copied())    // Ok({2, 1, 3})
    /// ```
    pub fn from_iter<I: Iterator<Item = K> + Drop>(alloc: A, iter: I) -> Result<IntSet<K, A>, Cause>
        requires can { I.can_next iter }
        requires ends { IsFinite (I.remaining iter) }
        ensures collects { (b slots : ℕ) × (b ≤ size (I.remaining iter))
            × IsLeastPower (max b least_capacity) slots × MatchResult result
            (Extends K.number_of K.is_valid I.next_gives iter (empty_set slots))
            (λ cause. ((cause ≡ Cause.TooLarge) × (2 ^ 63 < b)) ⊎ ((b ≤ 2 ^ 63)
            × MayStop K.number_of K.is_valid I.next_gives iter (empty_set slots) cause)) }
        ensures runs { IfOk result (λ made. WholeRun I.next_gives iter (λ run. (q : K)
            → holds K.number_of made.walk q ≡ holds K.number_of run.items q)) }
        ensures len { IfOk result (λ made. length made.walk ≤ size (I.remaining iter)) }
        ensures valid { IfOk result (IsSet K.number_of K.is_valid) }
    {
        let (lower, _) = iter.size_hint();
        let mut set = IntSet::with_capacity(alloc, lower)?;
        match set.extend(iter) {
            Ok(()) => Ok(set),
            Err(refused) => Err(refused.cause),
        }
    }

    /// A set of the array's keys: [`with_capacity`](IntSet::with_capacity) of their number, and
    /// then [`extend`](IntSet::extend), which counts what it compares.
    ///
    /// It first allocates a vector, and moves the keys into it. If this allocation fails, it fails
    /// with [`Cause::Memory`]. It also fails if either call fails, with the same cause. A failed
    /// call drops everything.
    ///
    /// ```text
    /// IntSet::from_array(alloc, [4, 0, 4])                  // Ok({4, 0})
    /// IntSet::<u64>::from_array(alloc, [])?.capacity()      // 2
    /// ```
    pub fn from_array<const N: usize>(alloc: A, keys: [K; N]) -> Result<IntSet<K, A>, Cause>
        ensures collects { IfOk result (IsCollected K.number_of K.is_valid N keys) }
        ensures updates { IfOk result (λ made. (q : K)
            → holds K.number_of made.walk q ≡ holds K.number_of keys q) }
        ensures len { IfOk result (λ made. length made.walk ≤ N) }
        ensures too_large { IfErr result (λ cause. cause ≡ Cause.TooLarge
            → (2 ^ 63 < N) ⊎ LeavesRange K.number_of K.is_valid N keys) }
        ensures valid { IfOk result (IsSet K.number_of K.is_valid) }
    {
        let Ok(keys) = Vec::from_array(alloc, keys) else {
            return Err(Cause::Memory);
        };
        let mut set = IntSet::with_capacity(alloc, N)?;
        match set.extend(keys.into_iter()) {
            Ok(()) => Ok(set),
            Err(refused) => Err(refused.cause),
        }
    }
}

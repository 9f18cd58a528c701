//! The vector: a map from places to values other than 0.
ghost use Rattle.std.specs.Prelude.{◌≡◌, ◌≢◌, ◌↔◌, ◌+◌, ◌<◌, ◌==◌, ℕ, ℤ, pos, ◌+ℤ◌, Err, FitsSigned, IfOk, IfErr, IfSome, IsOk, OnOk, OnErr, IsErrOf, IsNone, IsTrue, length, []};
ghost use Rattle.std.specs.Int.{w64};
ghost use Rattle.intmap.specs.Reach.{class_size};
ghost use Rattle.intmap.specs.Growth.{IsNext};
ghost use Rattle.intmap.specs.Growing.{NeedsTooMuchRoom};
ghost use Rattle.intmap.specs.Room.{HasRoom, HasRoomInRow};
ghost use Rattle.intmap.specs.Iterating.{GivesEach, ShowsEach, shown_pair};
ghost use Rattle.intmap_sparse.specs.Vectors.{as_map, value_at, IsAssignment, IsRoomMade, IsSparseVec, IsVector, HaveSameValues, IsBeyondRange, load_factor, product, products, products_along, HasWideSum, count_of_nonzero};

mod equal;

use crate::cause::SparseCause;
use intmap::iter::{IntoIter, Iter};
use intmap::{Cause, IntMap};
use std::alloc::{AllocError, Allocator, Global};
use std::fmt;
use std::marker::Model;

/// A vector of integers over places from 0 to 2^64 - 1. Most places have the value 0.
///
/// It stores exactly the places whose value isn't 0. Contracts see it as a
/// [`Vector`](../specs/Vectors.antt): its walk, which has these places with their values in
/// iteration order, its number of slots, and for how many places that share a slot there surely is
/// memory. The value at a place is `value_at` of the walk.
#[derive(Drop)]
pub struct SparseVec<A: Allocator + Copy = Global> {
    values: IntMap<u64, i64, A>,
}

// Invariant: no stored value is 0, and the load factor is that of every vector.
impl<A: Allocator + Copy> Model for SparseVec<A> {
    ghost use Rattle.std.specs.Prelude.{◌≡◌};
    ghost use Rattle.intmap_sparse.specs.Vectors.{Vector, HasNoZeros, load_factor, vector_of};

    ghost Value = { Vector };

    ghost view = { λ vector. vector_of vector.values };

    ghost invariant = { λ vector. HasNoZeros vector.values.walk
        × (vector.values.factor ≡ load_factor) };
}

impl<A: Allocator + Copy> SparseVec<A> {
    /// A vector with the value 0 at every place. It allocates 4 slots and their bits. It fails only
    /// if an allocation fails, with [`Cause::Memory`].
    pub fn new(alloc: A) -> Result<SparseVec<A>, Cause>
        ensures walk { IfOk result (λ made. made.walk ≡ []) }
        ensures capacity { IfOk result (λ made. made.capacity ≡ 4) }
        ensures reserved { IfOk result (λ made. made.reserved ≡ 0) }
        ensures memory { IfErr result (λ cause. cause ≡ Cause.Memory) }
    {
        Ok(SparseVec {
            values: IntMap::new(alloc)?,
        })
    }

    /// The value at the place, or 0 if none is stored. It never fails.
    ///
    /// ```text
    /// let mut vector = SparseVec::new(alloc)?;
    /// vector.set(5, 3)?;
    /// vector.get(5)    // 3
    /// vector.get(6)    // 0
    /// ```
    pub fn get(&self, place: u64) -> i64
        ensures value { result ≡ value_at self.now.walk place }
        ensures valid { IsSparseVec self.now }
    {
        self.values.get(place).copied().unwrap_or(0)
    }

    /// Sets the value at the place, and returns the old value. A 0 removes the place.
    ///
    /// It fails only if the place isn't stored and the value isn't 0: with [`Cause::TooLarge`] if
    /// and only if the vector already stores 2^64 - 1 places or growth needs more than 2^63 slots,
    /// and otherwise with [`Cause::Memory`] if an allocation fails. It never fails with `Memory` if
    /// the number of slots stays and no stored place has the same slot. A failed call changes
    /// nothing.
    ///
    /// ```text
    /// let mut vector = SparseVec::new(alloc)?;
    /// vector.set(3, 5)     // Ok(0)
    /// vector.set(3, 0)     // Ok(5)
    /// vector.len()         // 0
    /// vector.is_empty()    // true
    /// ```
    pub fn set(&mut self, place: u64, value: i64) -> Result<i64, Cause>
        // what is returned and left
        ensures old { IfOk result (λ old. old ≡ value_at self.old.walk place) }
        ensures assigned { OnOk result (IsAssignment self.old place value self.new) }
        ensures err { OnErr result (self.new ≡ self.old) }

        // when it fails
        ensures new_place { OnErr result (value_at self.old.walk place ≡ pos 0) }
        ensures nonzero { OnErr result (value ≢ pos 0) }
        ensures too_large { IsErrOf result Cause.TooLarge
            ↔ ((value ≢ pos 0) × IsBeyondRange self.old place) }
        ensures memory { IsErrOf result Cause.Memory
            → IsNext self.old.capacity (length self.old.walk + 1) load_factor self.old.capacity
            → 0 < class_size (λ key. key) self.old.walk self.old.capacity place }
        ensures has_room { HasRoom (λ key. key) (as_map self.old) 1 → IsOk result }

        ensures valid { IsSparseVec self.old }
        ensures valid_after { IsSparseVec self.new }
    {
        if value == 0 {
            return Ok(self.values.remove(place).unwrap_or(0));
        }
        let old = self.values.insert(place, value)?;
        Ok(old.unwrap_or(0))
    }

    /// Adds to the value at the place, and returns the sum. A sum of 0 removes the place.
    ///
    /// It fails with [`SparseCause::Overflow`] if and only if the sum isn't an `i64`. Otherwise it
    /// fails only if the place isn't stored and the sum isn't 0: with [`SparseCause::TooLarge`] if
    /// and only if the vector already stores 2^64 - 1 places or growth needs more than 2^63 slots,
    /// and otherwise with [`SparseCause::Memory`] if an allocation fails. It never fails with
    /// `Memory` if the number of slots stays and no stored place has the same slot. A failed call
    /// changes nothing.
    ///
    /// ```text
    /// let mut vector = SparseVec::new(alloc)?;
    /// vector.add(7, 5)     // Ok(5)
    /// vector.add(7, -5)    // Ok(0)
    /// vector               // {}
    /// ```
    pub fn add(&mut self, place: u64, delta: i64) -> Result<i64, SparseCause>
        // what is returned and left
        ensures sum { IfOk result (λ sum. sum ≡ value_at self.old.walk place +ℤ delta) }
        ensures assigned { OnOk result (IsAssignment self.old place
            (value_at self.old.walk place +ℤ delta) self.new) }
        ensures err { OnErr result (self.new ≡ self.old) }

        // when it fails
        ensures overflow { IsErrOf result SparseCause.Overflow
            ↔ ¬ (FitsSigned w64 (value_at self.old.walk place +ℤ delta)) }
        ensures new_place { IsErrOf result SparseCause.Memory
            → value_at self.old.walk place ≡ pos 0 }
        ensures nonzero { IsErrOf result SparseCause.Memory → delta ≢ pos 0 }
        ensures too_large { IsErrOf result SparseCause.TooLarge
            ↔ ((delta ≢ pos 0) × IsBeyondRange self.old place) }
        ensures memory { IsErrOf result SparseCause.Memory
            → IsNext self.old.capacity (length self.old.walk + 1) load_factor self.old.capacity
            → 0 < class_size (λ key. key) self.old.walk self.old.capacity place }
        ensures has_room { HasRoom (λ key. key) (as_map self.old) 1
            → FitsSigned w64 (value_at self.old.walk place +ℤ delta) → IsOk result }

        ensures valid { IsSparseVec self.old }
        ensures valid_after { IsSparseVec self.new }
    {
        let Some(sum) = self.get(place).checked_add(delta) else {
            return Err(SparseCause::Overflow);
        };
        self.set(place, sum)?;
        Ok(sum)
    }

    /// Makes room for `additional` places more, whichever they are: the number of slots becomes the
    /// least of itself and its doublings that meets the load factor with these places, and there is
    /// memory for as many places that share a slot with another. The next `additional` calls of
    /// [`set`](SparseVec::set) and [`add`](SparseVec::add) that store a place then allocate nothing,
    /// so none of them fails, except an `add` whose sum isn't an `i64`.
    ///
    /// Contracts say so by `HasRoom` of the map that the vector stands for: a `set` in a vector that
    /// has room for a place doesn't fail (its clause `has_room`), and
    /// [`insertions_leave_room`](crate::laws::insertions_leave_room) says what it leaves of the
    /// room.
    ///
    /// The call fails with [`Cause::TooLarge`] if and only if there would be more than 2^64 - 1
    /// stored places, or no number of slots up to 2^63 meets the load factor with them, and
    /// otherwise with [`Cause::Memory`] if an allocation fails. If the slots and the memory are
    /// there already, the call allocates nothing. A failed call leaves the vector as it was.
    ///
    /// ```text
    /// let mut vector = SparseVec::new(alloc)?;
    /// vector.set(3, 5)?;
    /// vector.reserve_insertions(100)?;
    /// vector    // {3: 5}
    /// ```
    pub fn reserve_insertions(&mut self, additional: usize) -> Result<(), Cause>
        ensures reserved { OnOk result (IsRoomMade self.old additional self.new) }
        ensures room { OnOk result (HasRoomInRow (λ key. key) self.new.walk self.new.capacity
            load_factor additional) }
        ensures any { OnOk result (HasRoom (λ key. key) (as_map self.new) additional) }
        ensures err { OnErr result (self.new ≡ self.old) }
        ensures too_large { (result ≡ Err Cause.TooLarge) ↔ NeedsTooMuchRoom self.old.capacity
            (length self.old.walk + additional) load_factor }
        ensures updates { HaveSameValues self.old.walk self.new.walk }
        ensures len { length self.new.walk ≡ length self.old.walk }
        ensures valid { IsSparseVec self.old }
        ensures valid_after { IsSparseVec self.new }
    {
        self.values.reserve_insertions(additional)
    }

    /// The sum of the products of the values of both vectors, over all places.
    ///
    /// The products are added along the walk of the vector with fewer stored places, or of `self`
    /// if both have the same number. The result is `None` if and only if a partial sum of that walk
    /// isn't an `i128`. It allocates nothing, and costs a step and a look-up for each of those
    /// places.
    ///
    /// ```text
    /// let mut first = SparseVec::new(alloc)?;
    /// first.set(1, 2)?;
    /// first.set(5, 3)?;
    /// let mut second = SparseVec::new(alloc)?;
    /// second.set(5, 4)?;
    /// second.set(7, 9)?;
    /// first.dot(&second)    // Some(12)
    /// ```
    pub fn dot(&self, other: &SparseVec<A>) -> Option<i128>
        ensures product { IfSome result (λ sum. sum ≡ product self.now.walk other.now.walk) }
        ensures none { IsNone result ↔ HasWideSum (products self.now.walk other.now.walk) }
    {
        if other.len() < self.len() {
            other.dot_along(self)
        } else {
            self.dot_along(other)
        }
    }

    /// The same, added along the walk of this vector.
    fn dot_along(&self, other: &SparseVec<A>) -> Option<i128>
        ensures product { IfSome result (λ sum. sum ≡ product self.now.walk other.now.walk) }
        ensures none { IsNone result ↔ HasWideSum (products_along self.now.walk other.now.walk) }
    {
        let mut sum = 0i128;
        for (place, value) in self.iter() {
            let term = *value as i128 * other.get(*place) as i128;
            let Some(more) = sum.checked_add(term) else {
                return None;
            };
            sum = more;
        }
        Some(sum)
    }

    /// The number of stored places, whose value isn't 0. It never fails.
    pub fn len(&self) -> usize
        ensures value { result ≡ length self.now.walk }
        ensures count { result ≡ count_of_nonzero self.now.walk }
        ensures valid { IsVector self.now.walk }
    {
        self.values.len()
    }

    /// Whether every place has the value 0. It never fails.
    pub fn is_empty(&self) -> bool
        ensures value { result ≡ (length self.now.walk == 0) }
        ensures zeros { IsTrue result ↔ HaveSameValues self.now.walk [] }
    {
        self.values.is_empty()
    }

    /// An iterator over the stored places and their values by reference, in iteration order.
    /// Neither this call nor a step of the iterator fails.
    ///
    /// ```text
    /// let mut vector = SparseVec::new(alloc)?;
    /// vector.set(1, 2)?;
    /// vector.set(5, 3)?;
    /// vector.iter()    // [(1, 2), (5, 3)]
    /// ```
    pub fn iter(&self) -> Iter<'_, u64, i64, A>
        ensures walk { result ≡ self.now.walk }
        ensures runs { ShowsEach (shown_pair {K = ℕ} {V = ℤ}) }
        ensures valid { IsVector self.now.walk }
    {
        self.values.iter()
    }
}

impl<'a, A: Allocator + Copy> IntoIterator for &'a SparseVec<A> {
    type Item = (&'a u64, &'a i64);

    type IntoIter = Iter<'a, u64, i64, A>;

    ghost into_iter_gives = { λ vector it. it ≡ vector.now.walk };

    /// The stored places and their values by reference, as by [`iter`](SparseVec::iter).
    fn into_iter(self) -> Iter<'a, u64, i64, A>
        ensures into_iter_gives { result ≡ self.now.walk }
        ensures valid { IsVector self.now.walk }
    {
        self.iter()
    }
}

impl<A: Allocator + Copy> IntoIterator for SparseVec<A> {
    type Item = (u64, i64);

    type IntoIter = IntoIter<u64, i64, A>;

    ghost into_iter_gives = { λ vector it. it ≡ vector.walk };

    /// An iterator over the stored places and their values by value, in iteration order. Neither
    /// this call nor a step of the iterator fails.
    fn into_iter(self) -> IntoIter<u64, i64, A>
        ensures into_iter_gives { result ≡ self.walk }
        ensures runs { GivesEach (ℕ × ℤ) }
    {
        self.values.into_iter()
    }
}

impl<A: Allocator + Copy> Clone for SparseVec<A> {
    ghost is_clone = { λ vector made. made ≡ record vector { reserved = 0 } };

    /// A vector with the same walk and number of slots, in which nothing is reserved. It fails only
    /// if an allocation fails.
    ///
    /// ```text
    /// let mut vector = SparseVec::new(alloc)?;
    /// vector.set(1, 2)?;
    /// vector.clone()?    // {1: 2}
    /// ```
    fn clone(&self) -> Result<SparseVec<A>, AllocError> {
        match self.values.clone() {
            Ok(values) => Ok(SparseVec { values }),
            Err(_) => Err(AllocError),
        }
    }
}

impl<A: Allocator + Copy> fmt::Debug for SparseVec<A> {
    /// Writes the stored places and their values in iteration order, as `{1: 2, 5: 3}`, or `{}` if
    /// there is none. It ignores the flags of the format. It fails only if writing fails.
    fn fmt<W: fmt::Write>(&self, f: &mut fmt::Formatter<W>) -> fmt::Result {
        write!(f, "{:?}", self.values)
    }
}

//! The capacity and the load factor, as callers set them.
ghost use Rattle.std.specs.Prelude.{◌≡◌, ◌↔◌, ◌+◌, ◌≤◌, ◌==◌, cond, length, Err, IfErr, IsOk, OnOk, OnErr};
ghost use Rattle.intmap_table.specs.Bindings.{value_of};
ghost use Rattle.intmap_table.specs.Figures.{load_of};
ghost use Rattle.intmap.specs.Growing.{IsReservation, IsNewFactor, IsRoomMade, MayRefuseReserve, MayRefuseFactor, MayRefuseRoom, MeetsFactor, NeedsTooMuchRoom};
ghost use Rattle.intmap.specs.Growth.{IsWanted, MeetsLoad, NeedsTooMuch};
ghost use Rattle.intmap.specs.Map.{IsMap, in_slots, still_reserved};
ghost use Rattle.intmap.specs.Room.{HasRoom, HasRoomInRow};

use crate::load::{GREATEST_CAPACITY, threshold_of, wanted_capacity};
use crate::map::IntMap;
use crate::refusal::Cause;
use intmap_table::IntKey;
use intmap_table::steps::Steps;
use std::alloc::Allocator;

/// What is reserved stays reserved if the capacity stays. Growth makes it 0.
fn keep_if_same(reserved: &mut Steps, capacity: usize, before: usize)
    ensures { reserved.new ≡ cond (capacity == before) reserved.old 0 }
{
    if capacity != before {
        *reserved = Steps::new();
    }
}

impl<K: IntKey, V: Drop, A: Allocator + Copy> IntMap<K, V, A> {
    /// Makes the capacity at least the least power of two that is no less than the length plus
    /// `additional`. If the capacity is greater already, it stays. The load factor isn't
    /// considered, so later insertions may still grow the table.
    ///
    /// It fails with [`Cause::TooLarge`] if and only if the length plus `additional` is above 2^63,
    /// and otherwise with [`Cause::Memory`] if an allocation fails. It never fails if the capacity
    /// is at least that sum. A failed call leaves the map as it was.
    ///
    /// ```text
    /// let mut map = IntMap::new(alloc)?;
    /// map.insert(21, 'a')?;
    /// map.reserve(3)?;
    /// map.capacity()                      // 4
    /// map.reserve(4)?;
    /// map.capacity()                      // 8
    /// map.reserve(9223372036854775808)    // Err(TooLarge)
    /// ```
    pub fn reserve(&mut self, additional: usize) -> Result<(), Cause>
        ensures reserved { OnOk result
            (IsReservation K.number_of self.old additional self.new) }
        ensures err { OnErr result (self.new ≡ self.old) }
        ensures refused { IfErr result
            (MayRefuseReserve self.old.capacity (length self.old.walk + additional)) }
        ensures updates { (q : K)
            → value_of K.number_of self.new.walk q ≡ value_of K.number_of self.old.walk q }
        ensures len { length self.new.walk ≡ length self.old.walk }
        ensures valid { IsMap K.number_of K.is_valid self.old }
        ensures valid_after { IsMap K.number_of K.is_valid self.new }
    {
        if self.len > GREATEST_CAPACITY || additional > GREATEST_CAPACITY - self.len {
            return Err(Cause::TooLarge);
        }
        let slots = (self.len + additional).next_power_of_two();
        let before = self.table.capacity();
        let capacity = slots.max(before);
        if self.table.grow_to(capacity, 0).is_err() {
            return Err(Cause::Memory);
        }
        keep_if_same(&mut self.reserved, capacity, before);
        self.threshold = threshold_of(capacity, self.factor);
        Ok(())
    }

    /// Makes room for `additional` pairs more: at once, whatever the length is, the capacity
    /// becomes the least of itself and its doublings that meets the load factor with these pairs.
    /// The next `additional` insertions of absent keys then leave the capacity, as long as the load
    /// factor stays.
    ///
    /// Keys that follow one another, such as ids, are then inserted without failure: each has a
    /// slot of its own, as long as they and the keys of the map lie within as many numbers in a row
    /// as there are slots. The insertion of a key whose slot holds a pair may allocate, and fail:
    /// [`reserve_insertions`](IntMap::reserve_insertions) makes room for such keys too.
    ///
    /// It fails with [`Cause::TooLarge`] if and only if there would be more than 2^64 - 1 pairs, or
    /// no capacity up to 2^63 meets the load factor with them, and otherwise with
    /// [`Cause::Memory`] if an allocation fails. If the present capacity meets it with them, the
    /// call allocates nothing. A failed call leaves the map as it was.
    ///
    /// ```text
    /// let mut map: IntMap<u64, char> = IntMap::with_capacity(alloc, 16)?;
    /// map.reserve_pairs(15)?;
    /// // 15 pairs in 16 slots are 937 thousandths
    /// map.capacity()    // 32
    /// map.reserve_pairs(29)?;
    /// map.capacity()    // 32
    /// ```
    pub fn reserve_pairs(&mut self, additional: usize) -> Result<(), Cause>
        ensures reserved { OnOk result (IsRoomMade K.number_of self.old additional self.new) }
        ensures room { OnOk result (HasRoomInRow K.number_of self.new.walk self.new.capacity
            self.new.factor additional) }
        ensures err { OnErr result (self.new ≡ self.old) }
        ensures refused { IfErr result (MayRefuseRoom self.old.capacity
            (length self.old.walk + additional) self.old.factor) }
        ensures updates { (q : K)
            → value_of K.number_of self.new.walk q ≡ value_of K.number_of self.old.walk q }
        ensures len { length self.new.walk ≡ length self.old.walk }
        ensures valid { IsMap K.number_of K.is_valid self.old }
        ensures valid_after { IsMap K.number_of K.is_valid self.new }
    {
        self.make_room(additional, 0)
    }

    /// Makes room for `additional` insertions of any keys: the slots that
    /// [`reserve_pairs`](IntMap::reserve_pairs) makes, and memory for as many pairs that share a
    /// slot with another. The next `additional` insertions of absent keys then allocate nothing, so
    /// none of them fails, as long as no call but insertions, removals and look-ups changes the
    /// map.
    ///
    /// Contracts say so by `HasRoom`: an insertion into a map that has room for a pair doesn't fail
    /// (its clause `has_room`), and
    /// [`insertions_leave_room`](crate::laws::insertions_leave_room) says what it leaves of the
    /// room.
    ///
    /// It fails as [`reserve_pairs`](IntMap::reserve_pairs) does, and also, with [`Cause::Memory`],
    /// if the memory for pairs that share a slot is refused. A failed call leaves the map as it
    /// was.
    ///
    /// ```text
    /// let mut map: IntMap<u64, char> = IntMap::new(alloc)?;
    /// map.reserve_insertions(100)?;
    /// map.capacity()    // 128
    /// ```
    pub fn reserve_insertions(&mut self, additional: usize) -> Result<(), Cause>
        ensures reserved { OnOk result (IsRoomMade K.number_of self.old additional self.new) }
        ensures room { OnOk result (HasRoomInRow K.number_of self.new.walk self.new.capacity
            self.new.factor additional) }
        ensures any { OnOk result (HasRoom K.number_of self.new additional) }
        ensures err { OnErr result (self.new ≡ self.old) }
        ensures too_large { (result ≡ Err Cause.TooLarge) ↔ NeedsTooMuchRoom self.old.capacity
            (length self.old.walk + additional) self.old.factor }
        ensures updates { (q : K)
            → value_of K.number_of self.new.walk q ≡ value_of K.number_of self.old.walk q }
        ensures len { length self.new.walk ≡ length self.old.walk }
        ensures valid { IsMap K.number_of K.is_valid self.old }
        ensures valid_after { IsMap K.number_of K.is_valid self.new }
    {
        self.make_room(additional, additional)
    }

    /// Sets the load factor, in thousandths: the greatest number of pairs for each slot at the
    /// lengths at which insertions check the load. At once, whatever the length is, the capacity
    /// becomes the least of itself and its doublings that meets the load factor.
    ///
    /// It fails with [`Cause::TooLarge`] if and only if no capacity up to 2^63 meets the load
    /// factor, and otherwise with [`Cause::Memory`] if an allocation fails. It never fails if the
    /// present capacity meets it. A failed call leaves the map as it was, with its load factor.
    ///
    /// ```text
    /// let mut map = IntMap::from_array(alloc, [(0, 10), (1, 11), (2, 12)])?;
    /// map.set_load_factor(100)?;
    /// // 3 pairs in 16 slots are 187 thousandths
    /// map.capacity()    // 32
    /// map.set_load_factor(909)?;
    /// map.capacity()    // 32
    /// ```
    pub fn set_load_factor(&mut self, thousandths: usize) -> Result<(), Cause>
        ensures set { OnOk result (IsNewFactor K.number_of self.old thousandths self.new) }
        ensures err { OnErr result (self.new ≡ self.old) }
        ensures refused { IfErr result
            (MayRefuseFactor self.old.capacity (length self.old.walk) thousandths) }
        ensures updates { (q : K)
            → value_of K.number_of self.new.walk q ≡ value_of K.number_of self.old.walk q }
        ensures len { length self.new.walk ≡ length self.old.walk }
        ensures valid { IsMap K.number_of K.is_valid self.old }
        ensures valid_after { IsMap K.number_of K.is_valid self.new }
    {
        self.fit(self.len, thousandths, 0)
    }

    /// Makes the slots that meet the load factor with `additional` pairs more, and room for
    /// `sharing` more pairs that share a slot with another.
    fn make_room(&mut self, additional: usize, sharing: usize) -> Result<(), Cause>
        ensures reserved { OnOk result (IsRoomMade K.number_of self.old additional self.new) }
        ensures room { OnOk result (HasRoomInRow K.number_of self.new.walk self.new.capacity
            self.new.factor additional) }
        ensures any { OnOk result (sharing ≡ additional
            → HasRoom K.number_of self.new additional) }
        ensures err { OnErr result (self.new ≡ self.old) }
        ensures too_large { (result ≡ Err Cause.TooLarge) ↔ NeedsTooMuchRoom self.old.capacity
            (length self.old.walk + additional) self.old.factor }
        ensures free { sharing ≡ 0 → MeetsLoad self.old.capacity
            (length self.old.walk + additional) self.old.factor → result ≡ Err Cause.Memory → ⊥ }
        ensures updates { (q : K)
            → value_of K.number_of self.new.walk q ≡ value_of K.number_of self.old.walk q }
        ensures len { length self.new.walk ≡ length self.old.walk }
        ensures valid { IsMap K.number_of K.is_valid self.old }
        ensures valid_after { IsMap K.number_of K.is_valid self.new }
    {
        let Some(pairs) = self.len.checked_add(additional) else {
            return Err(Cause::TooLarge);
        };
        self.fit(pairs, self.factor, sharing)
    }

    /// Makes the slots in which `pairs` pairs meet this load factor, and sets it. It also makes
    /// room for `sharing` more pairs that share a slot with another.
    fn fit(&mut self, pairs: usize, thousandths: usize, sharing: usize) -> Result<(), Cause>
        requires { length self.old.walk ≤ pairs }
        ensures meets { OnOk result
            (MeetsFactor self.old.capacity pairs thousandths self.new.capacity) }
        ensures state { OnOk result (self.new ≡ in_slots K.number_of
            (record self.old { factor = thousandths }) self.new.capacity self.new.reserved) }
        ensures reserved { OnOk result
            (still_reserved K.number_of self.old self.new.capacity ≤ self.new.reserved) }
        ensures memory { OnOk result (length self.new.walk + sharing
            ≤ load_of K.number_of self.new.walk self.new.capacity + self.new.reserved) }
        ensures err { OnErr result (self.new ≡ self.old) }
        ensures too_large { (result ≡ Err Cause.TooLarge)
            ↔ NeedsTooMuch (IsWanted self.old.capacity pairs thousandths) }
        ensures updates { (q : K)
            → value_of K.number_of self.new.walk q ≡ value_of K.number_of self.old.walk q }
        ensures len { length self.new.walk ≡ length self.old.walk }
        ensures free { sharing ≡ 0 → MeetsLoad self.old.capacity pairs thousandths → IsOk result }
        ensures valid { IsMap K.number_of K.is_valid self.old }
        ensures valid_after { IsMap K.number_of K.is_valid self.new }
    {
        let before = self.table.capacity();
        let Some(capacity) = wanted_capacity(pairs, before, thousandths) else {
            return Err(Cause::TooLarge);
        };
        if self.table.grow_to(capacity, sharing).is_err() {
            return Err(Cause::Memory);
        }
        keep_if_same(&mut self.reserved, capacity, before);
        self.table.count_further(&mut self.reserved, sharing);
        self.factor = thousandths;
        self.threshold = threshold_of(capacity, thousandths);
        Ok(())
    }

    /// The load factor, in thousandths. It never fails.
    pub fn get_load_factor(&self) -> usize
        ensures value { result ≡ self.now.factor }
        ensures valid { IsMap K.number_of K.is_valid self.now }
    {
        self.factor
    }
}

//! New sets, the insertion of a key, and reservations.
ghost use Rattle.std.specs.Prelude.{◌≡◌, ◌↔◌, ◌+◌, ◌^◌, ◌<◌, cond, false, true, max, length, not, Err, IfOk, IfErr, OnOk, OnErr, IsOk, MatchBool};
ghost use Rattle.intmap.specs.Growing.{MayRefuseReserve, MayRefuseRoom, MeetsFactor, NeedsTooMuchRoom};
ghost use Rattle.intmap.specs.Growth.{IsLeastPower, IsWanted, NeedsTooMuch};
ghost use Rattle.intmap.specs.Map.{NeedsNoMemory, after_insert, least_capacity};
ghost use Rattle.intmap.specs.PlainLists.{RefusalIsDue, list_of};
ghost use Rattle.intmap.specs.Room.{HasRoom, HasRoomInRow};
ghost use Rattle.intmap_set.specs.Extending.{Inserts};
ghost use Rattle.intmap_set.specs.Growing.{IsReservation, IsRoomMade};
ghost use Rattle.intmap_set.specs.Sets.{IsSet, Updates, as_map, empty_set, holds, load_factor, looked_up, paired, set_of};

use crate::set::IntSet;
use intmap::{Cause, IntKey, IntMap};
use std::alloc::Allocator;

impl<K: IntKey, A: Allocator + Copy> IntSet<K, A> {
    /// An empty set of 4 slots, with a load factor of 909 thousandths. It allocates the slots and
    /// their bits. It fails only if an allocation fails, with [`Cause::Memory`].
    ///
    /// ```text
    /// let set: IntSet<u64> = IntSet::new(alloc)?;
    /// set               // {}
    /// set.len()         // 0
    /// set.is_empty()    // true
    /// set.capacity()    // 4
    /// ```
    pub fn new(alloc: A) -> Result<IntSet<K, A>, Cause>
        ensures state { IfOk result (λ made. made ≡ empty_set 4) }
        ensures memory { IfErr result (λ cause. cause ≡ Cause.Memory) }
        ensures valid { IfOk result (IsSet K.number_of K.is_valid) }
    {
        Ok(IntSet {
            map: IntMap::new(alloc)?,
        })
    }

    /// An empty set with a load factor of 909 thousandths. Its number of slots is the least power
    /// of two that is at least `capacity`, and at least 2. To make room for members, call
    /// [`with_room_for`](IntSet::with_room_for). It fails with [`Cause::TooLarge`] if and only if
    /// `capacity` is above 2^63, and otherwise with [`Cause::Memory`] if an allocation fails.
    pub fn with_capacity(alloc: A, capacity: usize) -> Result<IntSet<K, A>, Cause>
        ensures state { IfOk result (λ made. made ≡ empty_set made.capacity) }
        ensures capacity { IfOk result
            (λ made. IsLeastPower (max capacity least_capacity) made.capacity) }
        ensures too_large { (result ≡ Err Cause.TooLarge) ↔ (2 ^ 63 < capacity) }
        ensures valid { IfOk result (IsSet K.number_of K.is_valid) }
    {
        Ok(IntSet {
            map: IntMap::with_capacity(alloc, capacity)?,
        })
    }

    /// An empty set with room for `members` members, and a load factor of 909 thousandths. Its
    /// number of slots is the least power of two, from 2 on, in which so many members meet the load
    /// factor. It is what [`reserve_members`](IntSet::reserve_members) makes of two slots, but
    /// allocates the slots once.
    ///
    /// It fails with [`Cause::TooLarge`] if and only if no capacity up to 2^63 meets the load
    /// factor, and otherwise with [`Cause::Memory`] if an allocation fails.
    ///
    /// ```text
    /// // 14 members in 16 slots are 875 thousandths, and 15 are 937
    /// IntSet::<u64>::with_room_for(alloc, 14)?.capacity()    // 16
    /// IntSet::<u64>::with_room_for(alloc, 15)?.capacity()    // 32
    /// ```
    pub fn with_room_for(alloc: A, members: usize) -> Result<IntSet<K, A>, Cause>
        ensures state { IfOk result (λ made. made ≡ empty_set made.capacity) }
        ensures capacity { IfOk result
            (λ made. MeetsFactor least_capacity members load_factor made.capacity) }
        ensures room { IfOk result (λ made. HasRoomInRow K.number_of (paired made.walk)
            made.capacity load_factor members) }
        ensures too_large { (result ≡ Err Cause.TooLarge)
            ↔ NeedsTooMuch (IsWanted least_capacity members load_factor) }
        ensures valid { IfOk result (IsSet K.number_of K.is_valid) }
    {
        Ok(IntSet {
            map: IntMap::with_room_for(alloc, members)?,
        })
    }

    /// Makes the key a member, and returns whether it is new. If it is a member already, only the
    /// count of compared keys changes. A new member is put at the end of its slot, and the table
    /// grows as the table of a map does at a new key.
    ///
    /// The insertion of a member never fails. The insertion of a new key fails with
    /// [`Cause::TooLarge`] if and only if the set has 2^64 - 1 members or growth needs more than
    /// 2^63 slots, and otherwise with [`Cause::Memory`] if an allocation fails. It allocates
    /// nothing if the capacity stays and the slot holds no member. A failed call leaves the set as
    /// it was. Only the count of compared keys, which takes no memory, changes.
    ///
    /// ```text
    /// let mut set = IntSet::from_iter(alloc, [0, 4, 8].into_iter())?;
    /// // 2 keys are compared
    /// set.insert(4)     // Ok(false)
    /// // 3 keys are compared; four members in four slots exceed 909 thousandths
    /// set.insert(12)    // Ok(true)
    /// set.capacity()    // 8
    /// ```
    #[inline(always)]
    pub fn insert(&mut self, key: K) -> Result<bool, Cause>
        // what is returned and left
        ensures new { IfOk result (λ new. new ≡ not (holds K.number_of self.old.walk key)) }
        ensures inserted { OnOk result (Inserts K.number_of K.is_valid self.old key self.new) }
        ensures updates { OnOk result (Updates K.number_of self.old.walk self.new.walk key true) }
        ensures len { IfOk result
            (λ new. length self.new.walk ≡ length self.old.walk + cond new 1 0) }
        ensures state { IfOk result (λ new. MatchBool new
            (self.new ≡ set_of (after_insert K.number_of (as_map self.old) key tt
            self.new.capacity)) (self.new ≡ looked_up K.number_of self.old key)) }
        ensures err { OnErr result (self.new ≡ looked_up K.number_of self.old key) }

        // when it fails
        ensures absent { OnErr result (holds K.number_of self.old.walk key ≡ false) }
        ensures refused { IfErr result (RefusalIsDue K.number_of (list_of (as_map self.old)) key) }
        ensures succeeds { NeedsNoMemory K.number_of (paired self.old.walk) self.old.capacity
            load_factor key → IsOk result }
        ensures has_room { HasRoom K.number_of (as_map self.old) 1 → IsOk result }

        ensures valid { IsSet K.number_of K.is_valid self.old }
        ensures valid_after { IsSet K.number_of K.is_valid self.new }
    {
        Ok(self.map.insert_checked(key, ())?)
    }

    /// Makes the capacity at least the least power of two that is no less than the length plus
    /// `additional`. If the capacity is greater already, it stays. The load factor isn't
    /// considered, so later insertions may still grow the table.
    ///
    /// It fails with [`Cause::TooLarge`] if and only if the length plus `additional` is above 2^63,
    /// and otherwise with [`Cause::Memory`] if an allocation fails. It never fails if the capacity
    /// is at least that sum. A failed call leaves the set as it was. Both counts stay.
    ///
    /// ```text
    /// let mut set: IntSet<u64> = IntSet::with_capacity(alloc, 20)?;
    /// set.capacity()    // 32
    /// set.reserve(33)?;
    /// set.capacity()    // 64
    /// ```
    pub fn reserve(&mut self, additional: usize) -> Result<(), Cause>
        ensures reserved { OnOk result
            (IsReservation K.number_of self.old additional self.new) }
        ensures err { OnErr result (self.new ≡ self.old) }
        ensures refused { IfErr result
            (MayRefuseReserve self.old.capacity (length self.old.walk + additional)) }
        ensures updates { (q : K)
            → holds K.number_of self.new.walk q ≡ holds K.number_of self.old.walk q }
        ensures len { length self.new.walk ≡ length self.old.walk }
        ensures valid { IsSet K.number_of K.is_valid self.old }
        ensures valid_after { IsSet K.number_of K.is_valid self.new }
    {
        self.map.reserve(additional)
    }

    /// Makes room for `additional` members more: at once, whatever the length is, the capacity
    /// becomes the least of itself and its doublings at which as many members more meet the load
    /// factor. The next `additional` insertions of new keys then leave the capacity.
    ///
    /// Keys that follow one another, such as ids, are then inserted without failure: each has a
    /// slot of its own, as long as they and the members lie within as many numbers in a row as
    /// there are slots. The insertion of a key whose slot holds a member may allocate, and fail:
    /// [`reserve_insertions`](IntSet::reserve_insertions) makes room for such keys too.
    ///
    /// It fails with [`Cause::TooLarge`] if and only if there would be more than 2^64 - 1 members,
    /// or no capacity up to 2^63 meets the load factor, and otherwise with [`Cause::Memory`] if an
    /// allocation fails. If the present capacity meets the load factor, it allocates nothing. A
    /// failed call leaves the set as it was. Both counts stay.
    ///
    /// ```text
    /// let mut set: IntSet<u64> = IntSet::with_capacity(alloc, 16)?;
    /// set.reserve_members(15)?;
    /// // 15 members in 16 slots are 937 thousandths
    /// set.capacity()    // 32
    /// ```
    pub fn reserve_members(&mut self, additional: usize) -> Result<(), Cause>
        ensures reserved { OnOk result (IsRoomMade K.number_of self.old additional self.new) }
        ensures room { OnOk result (HasRoomInRow K.number_of (paired self.new.walk)
            self.new.capacity load_factor additional) }
        ensures err { OnErr result (self.new ≡ self.old) }
        ensures refused { IfErr result (MayRefuseRoom self.old.capacity
            (length self.old.walk + additional) load_factor) }
        ensures updates { (q : K)
            → holds K.number_of self.new.walk q ≡ holds K.number_of self.old.walk q }
        ensures len { length self.new.walk ≡ length self.old.walk }
        ensures valid { IsSet K.number_of K.is_valid self.old }
        ensures valid_after { IsSet K.number_of K.is_valid self.new }
    {
        self.map.reserve_pairs(additional)
    }

    /// Makes room for `additional` insertions of any keys: the slots that
    /// [`reserve_members`](IntSet::reserve_members) makes, and memory for as many members that
    /// share a slot with another. The next `additional` insertions of new keys then allocate
    /// nothing, so none of them fails, as long as no call but insertions, removals and look-ups
    /// changes the set.
    ///
    /// It fails as [`reserve_members`](IntSet::reserve_members) does, and also, with
    /// [`Cause::Memory`], if the memory for members that share a slot is refused. A failed call
    /// leaves the set as it was.
    ///
    /// Contracts say so by `HasRoom` of the map that the set stands for: an insertion into a set
    /// that has room for a member doesn't fail (its clause `has_room`), and
    /// [`insertions_leave_room`](crate::laws::insertions_leave_room) says what it leaves of the
    /// room.
    ///
    /// ```text
    /// let mut set: IntSet<u64> = IntSet::new(alloc)?;
    /// set.reserve_insertions(100)?;
    /// set.capacity()    // 128
    /// ```
    pub fn reserve_insertions(&mut self, additional: usize) -> Result<(), Cause>
        ensures reserved { OnOk result (IsRoomMade K.number_of self.old additional self.new) }
        ensures room { OnOk result (HasRoomInRow K.number_of (paired self.new.walk)
            self.new.capacity load_factor additional) }
        ensures any { OnOk result (HasRoom K.number_of (as_map self.new) additional) }
        ensures err { OnErr result (self.new ≡ self.old) }
        ensures too_large { (result ≡ Err Cause.TooLarge) ↔ NeedsTooMuchRoom self.old.capacity
            (length self.old.walk + additional) load_factor }
        ensures updates { (q : K)
            → holds K.number_of self.new.walk q ≡ holds K.number_of self.old.walk q }
        ensures len { length self.new.walk ≡ length self.old.walk }
        ensures valid { IsSet K.number_of K.is_valid self.old }
        ensures valid_after { IsSet K.number_of K.is_valid self.new }
    {
        self.map.reserve_insertions(additional)
    }
}

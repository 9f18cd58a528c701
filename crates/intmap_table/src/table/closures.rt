//! Calls with closures, in the order of the walk: `retain`, one step of `extract_if`, and writes to
//! each value.
ghost use Rattle.std.specs.Prelude.{◌≡◌, ◌^◌, ◌<◌, length, drop};
ghost use Rattle.intmap_table.specs.Walk.{walk_of};
ghost use Rattle.intmap_table.specs.Tables.Slots.{joined};
ghost use Rattle.intmap_table.specs.Tables.Rows.{IsTable};
ghost use Rattle.intmap_table.specs.Retaining.{Retains, KeepsAt, TakesPair};
ghost use Rattle.intmap_table.specs.Taking.{TakesEach};
ghost use Rattle.intmap_table.specs.Writes.{Writes, WritesAt, TakesPairMut};
ghost use Rattle.intmap_table.specs.Picking.{AsksAt, ExtractsBehind, IsReached, PicksAt};

use crate::bits::BITS;
use crate::kept::Kept;
use crate::key::IntKey;
use crate::table::Table;
use crate::table::slots::Slots;
use crate::table::stored::Stored;
use std::alloc::Allocator;

/// Keeps the pairs for which the closure returns true, slot after slot, and returns their number.
fn retain_slots<K: IntKey, V: Drop, A: Allocator, F: FnMut(K, &V) -> bool>(
    slots: &mut Slots<K, Kept<V>, A>,
    f: &mut F,
) -> usize
    requires callable { TakesEach (KeepsAt F.FnMut) (TakesPair F.FnMut) f.old
        (joined slots.old.rows) }
    requires table { IsTable K.number_of slots.old.rows }
    ensures pairs { Retains (KeepsAt F.FnMut) f.old (joined slots.old.rows)
        (joined slots.new.rows) f.new }
    ensures table { IsTable K.number_of slots.new.rows }
    ensures len { length slots.new.rows ≡ length slots.old.rows }
    ensures total { slots.new.total ≡ slots.old.total }
    ensures count { result ≡ length (joined slots.new.rows) }
{
    let mut from = 0;
    while from < slots.len() {
        slots.retain_word(from, f);
        from += BITS;
    }
    slots.pair_count()
}

/// Calls the closure at each pair, slot after slot, with a mutable reference to its value.
fn write_slots<K: IntKey, V, A: Allocator, F: FnMut(K, &mut V)>(
    slots: &mut Slots<K, Kept<V>, A>,
    f: &mut F,
)
    requires callable { TakesEach (WritesAt F.FnMut) (TakesPairMut F.FnMut) f.old
        (joined slots.old.rows) }
    requires table { IsTable K.number_of slots.old.rows }
    ensures pairs { Writes (WritesAt F.FnMut) f.old (joined slots.old.rows)
        (joined slots.new.rows) f.new }
    ensures table { IsTable K.number_of slots.new.rows }
    ensures len { length slots.new.rows ≡ length slots.old.rows }
    ensures total { slots.new.total ≡ slots.old.total }
{
    let mut from = 0;
    let mut left = slots.marks_from(from);
    while let Some(index) = slots.next_in(&mut left, from) {
        slots.write_at(index, f);
        from = index + 1;
    }
}

impl<K: IntKey, V: Drop, A: Allocator> Table<K, Kept<V>, A> {
    /// Keeps the pairs for which the closure returns true, in their order, and returns their
    /// number. The closure is called once at each pair, in the order of the walk.
    pub fn retain<F: FnMut(K, &V) -> bool>(&mut self, f: &mut F) -> usize
        requires callable { TakesEach (KeepsAt F.FnMut) (TakesPair F.FnMut) f.old
            self.old.walk }
        requires count { length self.old.walk < 2 ^ 64 }
        ensures pairs { Retains (KeepsAt F.FnMut) f.old self.old.walk
            self.new.walk f.new }
        ensures capacity { self.new.capacity ≡ self.old.capacity }
        ensures nodes { self.new.nodes ≡ self.old.nodes }
        ensures own { walk_of K.number_of self.new.walk self.new.capacity ≡ self.new.walk }
        ensures count { result ≡ length self.new.walk }
    {
        retain_slots(&mut self.slots, f)
    }
}

/// How far a closure was asked: up to place `place` of slot `slot`. Before this place are `passed`
/// pairs, which stayed.
#[derive(Drop)]
pub struct Progress {
    pub slot: usize,
    pub place: usize,
    pub passed: usize,
}

impl Progress {
    /// The closure was asked about no pair.
    pub fn start() -> Progress
        ensures { result ≡ record { slot = 0; place = 0; passed = 0 } }
    {
        Progress {
            slot: 0,
            place: 0,
            passed: 0,
        }
    }
}

/// Asks the closure about each pair that is left, slot after slot, and removes the first one
/// that it picks.
fn extract_slots<K: IntKey, V, A: Allocator, F: FnMut(K, &mut V) -> bool>(
    slots: &mut Slots<K, Kept<V>, A>,
    at: &mut Progress,
    f: &mut F,
) -> Option<(Stored<K>, Kept<V>)>
    requires table { IsTable K.number_of slots.old.rows }
    requires reached { IsReached K.number_of (joined slots.old.rows)
        (length slots.old.rows) at.old.slot at.old.place at.old.passed }
    requires count { length (joined slots.old.rows) < 2 ^ 64 }
    requires callable { TakesEach (AsksAt F.FnMut) (TakesPairMut F.FnMut) f.old
        (drop at.old.passed (joined slots.old.rows)) }
    ensures step { ExtractsBehind (PicksAt F.FnMut) f.old (joined slots.old.rows)
        at.old.passed result f.new (joined slots.new.rows) at.new.passed }
    ensures table { IsTable K.number_of slots.new.rows }
    ensures reached { IsReached K.number_of (joined slots.new.rows)
        (length slots.new.rows) at.new.slot at.new.place at.new.passed }
    ensures len { length slots.new.rows ≡ length slots.old.rows }
    ensures total { slots.new.total ≡ slots.old.total }
{
    let mut left = slots.marks_from(at.slot);
    while let Some(slot) = slots.next_in(&mut left, at.slot) {
        at.slot = slot;
        let before = at.place;
        let found = slots.extract_at(slot, &mut at.place, f);
        at.passed += at.place - before;
        if let Some(pair) = found {
            return Some(pair);
        }
        at.slot = slot + 1;
        at.place = 0;
    }
    None
}

impl<K: IntKey, V, A: Allocator> Table<K, Kept<V>, A> {
    /// Asks the closure about each pair that is left, in the order of the walk, and removes the
    /// first one that it picks. The closure may write each value. The pairs that stay keep their
    /// order.
    #[inline]
    pub fn extract_next<F: FnMut(K, &mut V) -> bool>(
        &mut self,
        at: &mut Progress,
        f: &mut F,
    ) -> Option<(K, V)>
        requires reached { IsReached K.number_of self.old.walk self.old.capacity
            at.old.slot at.old.place at.old.passed }
        requires count { length self.old.walk < 2 ^ 64 }
        requires callable { TakesEach (AsksAt F.FnMut) (TakesPairMut F.FnMut) f.old
            (drop at.old.passed self.old.walk) }
        ensures step { ExtractsBehind (PicksAt F.FnMut) f.old self.old.walk
            at.old.passed result f.new self.new.walk at.new.passed }
        ensures reached { IsReached K.number_of self.new.walk self.new.capacity
            at.new.slot at.new.place at.new.passed }
        ensures capacity { self.new.capacity ≡ self.old.capacity }
        ensures nodes { self.new.nodes ≡ self.old.nodes }
        ensures own { walk_of K.number_of self.new.walk self.new.capacity ≡ self.new.walk }
    {
        let Some((key, kept)) = extract_slots(&mut self.slots, at, f) else {
            return None;
        };
        Some((*key.key(), kept.into_value()))
    }

    /// Calls the closure at each pair in the order of the walk, with a mutable reference to its
    /// value.
    pub fn write_each<F: FnMut(K, &mut V)>(&mut self, f: &mut F)
        requires { TakesEach (WritesAt F.FnMut) (TakesPairMut F.FnMut) f.old
            self.old.walk }
        ensures pairs { Writes (WritesAt F.FnMut) f.old self.old.walk
            self.new.walk f.new }
        ensures capacity { self.new.capacity ≡ self.old.capacity }
        ensures nodes { self.new.nodes ≡ self.old.nodes }
        ensures own { walk_of K.number_of self.new.walk self.new.capacity ≡ self.new.walk }
    {
        write_slots(&mut self.slots, f);
    }
}

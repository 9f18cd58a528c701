//! Removal of the pairs of a table, one by one, from the front of its walk.
ghost use Rattle.std.specs.Bool.{OnFalse, OnTrue};
ghost use Rattle.std.specs.Prelude.{◌≡◌, ◌≤◌, ◌^◌, [], length, IfNone, IfSome};
ghost use Rattle.std.specs.Iterator.{YieldsFirst};
ghost use Rattle.intmap_table.specs.Fronts.{IsFront, IsRowFront};
ghost use Rattle.intmap_table.specs.Tables.Slots.{joined, IsNextRow};
ghost use Rattle.intmap_table.specs.Walk.{walk_of, ArePassed};
ghost use Rattle.intmap_table.specs.Classes.{slot_number};

use crate::bits::MarksLeft;
use crate::key::IntKey;
use crate::table::Table;
use crate::table::slots::Slots;
use std::alloc::Allocator;

/// How far pairs were taken from the front of the walk. Slot `at` may still hold some of its pairs,
/// and `left` has the marks of the slots behind it.
#[derive(Drop)]
pub struct Front {
    at: usize,
    left: MarksLeft,
}

/// Moves the front to the first slot that holds a pair, and returns whether there is one.
#[inline(always)]
fn reach<K: IntKey, X, A: Allocator>(slots: &Slots<K, X, A>, front: &mut Front) -> bool
    requires slots { length slots.now.rows ≤ 2 ^ 63 }
    requires front { IsRowFront slots.now.rows front.old }
    ensures slot { OnTrue result (IsNextRow slots.now.rows 0 front.new.at) }
    ensures none { OnFalse result (joined slots.now.rows ≡ []) }
    ensures front { IsRowFront slots.now.rows front.new }
{
    if slots.holds_pair(front.at) {
        return true;
    }
    let Some(index) = slots.next_in(&mut front.left, front.at + 1) else {
        return false;
    };
    front.at = index;
    true
}

impl<K: IntKey, X, A: Allocator> Table<K, X, A> {
    /// The front of the walk, from which no pair was taken.
    pub fn front(&self) -> Front
        ensures { IsFront K.number_of self.now.walk self.now.capacity result }
    {
        Front {
            at: 0,
            left: self.slots.marks_from(1),
        }
    }

    /// Removes the first pair of the walk and returns it. All pairs before the front were taken.
    #[inline(always)]
    pub fn take_next(&mut self, front: &mut Front) -> Option<(K, X)>
        requires { IsFront K.number_of self.old.walk self.old.capacity front.old }
        ensures first { YieldsFirst (λ t. t.walk) self.old result self.new }
        ensures capacity { self.new.capacity ≡ self.old.capacity }
        ensures nodes { self.new.nodes ≡ self.old.nodes }
        ensures own { walk_of K.number_of self.new.walk self.new.capacity ≡ self.new.walk }
        ensures passed { IsFront K.number_of self.new.walk self.new.capacity front.new }
    {
        if !reach(&self.slots, front) {
            return None;
        }
        let (key, value) = self.slots.take_front(front.at);
        Some((*key.key(), value))
    }

    /// Removes the first pair of the walk and returns it. No slot before `from` may hold a pair.
    /// `from` moves on to the slot that held the removed pair. If no pair is left, `from` stays.
    #[inline(always)]
    pub fn take_front(&mut self, from: &mut usize) -> Option<(K, X)>
        requires { ArePassed K.number_of self.old.walk self.old.capacity from.old }
        ensures first { YieldsFirst (λ t. t.walk) self.old result self.new }
        ensures capacity { self.new.capacity ≡ self.old.capacity }
        ensures nodes { self.new.nodes ≡ self.old.nodes }
        ensures own { walk_of K.number_of self.new.walk self.new.capacity ≡ self.new.walk }
        ensures passed { ArePassed K.number_of self.new.walk self.new.capacity from.new }
        ensures slot { IfSome result
            (λ pair. from.new ≡ slot_number K.number_of pair.0 self.old.capacity) }
        ensures stays { IfNone result (from.new ≡ from.old) }
    {
        let index = self.slots.next_filled(*from)?;
        *from = index;
        let (key, value) = self.slots.take_front(index);
        Some((*key.key(), value))
    }
}

//! A table of slots. Each key has one of them.
//!
//! The calls here look at the slot of one key, or at the table as a whole. `locate` has the calls
//! on a pair whose place is known, `put` those that put a pair into its slot, `walk`, `keep`,
//! `front` and `closures` those that go through the pairs, `owned` the pairs by value, and `grow`
//! the growth. `slots` has the slots themselves, `stored` the keys in them, and `closure_calls`
//! single calls of a closure.

pub(crate) mod closure_calls;
mod closures;
pub mod front;
mod grow;
mod keep;
pub mod locate;
pub mod owned;
mod put;
mod slots;
pub mod stored;
pub mod walk;

ghost use Rattle.std.specs.Prelude.{◌≡◌, ◌+◌, ◌*◌, ◌%◌, ◌<◌, ◌≤◌, ℕ, max, [], OnOk, OnErr, IfOk, IfErr, IsOk, None, length};
ghost use Rattle.intmap_table.specs.Classes.{multiplier, slot_number, IsCapacity};
ghost use Rattle.intmap_table.specs.Bindings.{value_of, put_pair};
ghost use Rattle.intmap_table.specs.Locations.{IsAt};
ghost use Rattle.intmap_table.specs.Walk.{slot_of, walk_of};
ghost use Rattle.intmap_table.specs.Reach.{class_size};
ghost use Rattle.intmap_table.specs.Figures.{load_of};
ghost use Rattle.std.specs.List.{AllZip};
ghost use Rattle.intmap_table.specs.Cloning.{IsPairClone};

use crate::key::IntKey;
use crate::steps::Steps;
use crate::table::stored::{Sought, Stored};
pub use closures::Progress;
use locate::Location;
use slots::Slots;
pub use slots::walk::Pairs;
use std::alloc::{AllocError, Allocator};
use std::marker::Model;

/// An odd number. A key's number, times this one, modulo the number of slots is the key's slot.
/// Only the low bits of the number count: two keys share a slot if and only if their numbers are
/// equal modulo the number of slots. Since this number is odd, it permutes the slots and makes no
/// keys share one.
const MULTIPLIER: u64 = 11400714819323198549;

/// The slot of a key with this number in a table of `mask + 1` slots.
#[inline(always)]
fn index_of_number(number: u64, mask: usize) -> usize
    requires { IsCapacity (mask + 1) }
    ensures slot { result ≡ (number * multiplier) % (mask + 1) }
    ensures within { result ≤ mask }
{
    (number.wrapping_mul(MULTIPLIER) & mask as u64) as usize
}

/// The slot of a stored key in a table of `mask + 1` slots.
#[inline(always)]
fn masked_index_of<K: IntKey>(key: &Stored<K>, mask: usize) -> usize
    requires { IsCapacity (mask + 1) }
    ensures slot { result ≡ slot_number K.number_of key.now (mask + 1) }
    ensures within { result ≤ mask }
{
    index_of_number(key.key().number(), mask)
}

/// The slot of a key in a table of `slots` slots.
fn index_of<K: IntKey>(key: &Sought<K>, slots: usize) -> usize
    requires { IsCapacity slots }
    ensures slot { result ≡ slot_number K.number_of key.now slots }
    ensures within { result < slots }
{
    index_of_number(key.number(), slots - 1)
}

/// Slots, whose number is a power of two. Each pair lies in the slot of its key.
#[derive(Drop)]
pub struct Table<K: IntKey, X, A: Allocator> {
    slots: Slots<K, X, A>,
}

// Invariant: each pair is in the slot of its key.
impl<K: IntKey, X, A: Allocator> Model for Table<K, X, A> {
    ghost use Rattle.std.specs.Prelude.{length};
    ghost use Rattle.intmap_table.specs.Tables.Slots.{Grid, joined};
    ghost use Rattle.intmap_table.specs.Tables.Rows.{IsTable};

    ghost Value = { Grid K X };

    ghost view = { λ t. record {
      walk = joined t.slots.rows;
      capacity = length t.slots.rows;
      nodes = t.slots.total;
    } };

    ghost invariant = { λ t. IsTable K.number_of t.slots.rows };
}

impl<K: IntKey, X, A: Allocator> Table<K, X, A> {
    /// The number of slots.
    pub fn capacity(&self) -> usize
        ensures value { result ≡ self.now.capacity }
        ensures range { IsCapacity result }
        ensures own { walk_of K.number_of self.now.walk self.now.capacity ≡ self.now.walk }
    {
        self.slots.len()
    }

    /// The number of slots that hold a pair.
    pub fn load(&self) -> usize
        ensures { result ≡ load_of K.number_of self.now.walk self.now.capacity }
    {
        self.slots.count()
    }

    /// The number of pairs behind the first ones of their slots.
    fn further(&self) -> usize
        ensures { result + load_of K.number_of self.now.walk self.now.capacity
            ≡ length self.now.walk }
    {
        self.slots.further()
    }

    /// Raises a count to the number of pairs behind the first ones of their slots, and `more`. A
    /// count that is greater stays.
    pub fn count_further(&self, count: &mut Steps, more: usize)
        ensures { (further : ℕ) × (further
            + load_of K.number_of self.now.walk self.now.capacity ≡ length self.now.walk)
            × (count.new ≡ max count.old (further + more)) }
    {
        count.raise_to(self.further(), more);
    }

    /// The number of pairs that a slot holds.
    pub fn slot_len(&self, slot: usize) -> usize
        requires { slot < self.now.capacity }
        ensures { result ≡ length (slot_of K.number_of self.now.walk self.now.capacity slot) }
    {
        self.slots.row_len(slot)
    }

    /// The pairs, slot after slot.
    pub fn pairs(&self) -> Pairs<'_, K, X, A>
        ensures { result ≡ self.now.walk }
    {
        self.slots.pairs()
    }

    /// The slot of a key.
    fn index_of(&self, key: &Sought<K>) -> usize
        ensures slot { result ≡ slot_number K.number_of key.now self.now.capacity }
        ensures within { result < self.now.capacity }
        ensures known { K.is_valid key.now }
    {
        index_of_number(key.number(), self.slots.mask())
    }
}

impl<K: IntKey, X: Drop, A: Allocator> Table<K, X, A> {
    /// Drops all pairs, slot after slot, and keeps the slots and the memory that they have.
    pub fn clear(&mut self)
        ensures walk { self.new.walk ≡ [] }
        ensures capacity { self.new.capacity ≡ self.old.capacity }
        ensures nodes { self.new.nodes ≡ self.old.nodes }
    {
        self.slots.clear();
    }
}

impl<K: IntKey, X: Drop, A: Allocator + Copy> Table<K, X, A> {
    /// Puts the pair of an absent key last in its slot, and returns where it is. If an allocation
    /// fails, it returns the value and changes nothing. A slot without a pair needs no allocation.
    #[inline(always)]
    pub fn add(&mut self, slot: usize, key: Sought<K>, value: X) -> Result<Location<K>, X>
        requires missing { value_of K.number_of self.old.walk key ≡ None }
        requires slot { slot ≡ slot_number K.number_of key self.old.capacity }
        ensures key { IfOk result (λ at. at.key ≡ key) }
        ensures at { IfOk result (IsAt K.number_of self.new.walk self.new.capacity) }
        ensures walk { OnOk result (self.new.walk ≡ walk_of K.number_of
            (put_pair K.number_of self.old.walk self.old.capacity key value) self.old.capacity) }
        ensures err { OnErr result (self.new ≡ self.old) }
        ensures nodes { self.old.nodes ≤ self.new.nodes }
        ensures succeeds { length self.old.walk
            < load_of K.number_of self.old.walk self.old.capacity + self.old.nodes → IsOk result }
        ensures value_returned { IfErr result (λ returned. returned ≡ value) }
        ensures capacity { self.new.capacity ≡ self.old.capacity }
        ensures memory { OnErr result
            (0 < class_size K.number_of self.old.walk self.old.capacity key) }
        ensures known { K.is_valid key }
    {
        let place = match self.slots.push(slot, (Stored::new(key.copied()), value)) {
            Ok(place) => place,
            Err((_, value)) => return Err(value),
        };
        Ok(Location {
            key: key.key(),
            slot,
            place,
        })
    }

    /// The allocator of the slots.
    pub fn allocator(&self) -> A {
        self.slots.allocator()
    }

    /// A table of `capacity` empty slots. It allocates the slots, then their bits, and writes no
    /// slot before.
    pub fn new(alloc: A, capacity: usize) -> Result<Table<K, X, A>, AllocError>
        requires { IsCapacity capacity }
        ensures walk { IfOk result (λ table. table.walk ≡ []) }
        ensures capacity { IfOk result (λ table. table.capacity ≡ capacity) }
    {
        let slots = Slots::new(alloc, capacity, 0)?;
        Ok(Table { slots })
    }
}

impl<K: IntKey, X: Clone, A: Allocator + Copy> Table<K, X, A> {
    /// The same keys in the same slots, with clones of their values. The slots, their bits and the
    /// nodes of their further pairs are allocated before the first value is cloned.
    pub fn clone(&self) -> Result<Table<K, X, A>, AllocError>
        ensures walk { IfOk result
            (λ made. AllZip (IsPairClone X.is_clone) self.now.walk made.walk) }
        ensures capacity { IfOk result (λ made. made.capacity ≡ self.now.capacity) }
        ensures own { IfOk result
            (λ made. walk_of K.number_of made.walk made.capacity ≡ made.walk) }
    {
        let slots = self.slots.clone()?;
        Ok(Table { slots })
    }
}

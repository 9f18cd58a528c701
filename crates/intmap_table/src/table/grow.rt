//! Growth of a table, with a new pair or without one.
ghost use Rattle.std.specs.Prelude.{◌≡◌, ◌+◌, ◌^◌, ◌<◌, ◌≤◌, length, OnOk, OnErr, IfOk, IfErr, IsOk, None};
ghost use Rattle.intmap_table.specs.Classes.{IsCapacity, slot_number};
ghost use Rattle.intmap_table.specs.Bindings.{value_of, put_pair};
ghost use Rattle.intmap_table.specs.Walk.{walk_of};
ghost use Rattle.intmap_table.specs.Figures.{load_of};
ghost use Rattle.intmap_table.specs.Locations.{IsAt};

use crate::key::IntKey;
use crate::steps::Steps;
use crate::table::locate::Location;
use crate::table::stored::{Sought, Stored};
use crate::table::{Table, index_of};
use std::alloc::{AllocError, Allocator};

impl<K: IntKey, X: Drop, A: Allocator + Copy> Table<K, X, A> {
    /// Puts the pair of an absent key behind the pairs of its slot, moves all pairs, in the order
    /// of the walk, to their slots among `capacity` slots, and returns where the new pair is. If an
    /// allocation fails, the value is returned and nothing changes.
    pub fn grow_and_add(
        &mut self,
        capacity: usize,
        slot: usize,
        key: Sought<K>,
        value: X,
        placed: &mut Steps,
    ) -> Result<Location<K>, X>
        requires capacity { IsCapacity capacity }
        requires larger { self.old.capacity ≤ capacity }
        requires missing { value_of K.number_of self.old.walk key ≡ None }
        requires slot { slot ≡ slot_number K.number_of key self.old.capacity }
        requires count { length self.old.walk + 1 < 2 ^ 64 }
        ensures key { IfOk result (λ at. at.key ≡ key) }
        ensures at { IfOk result (IsAt K.number_of self.new.walk self.new.capacity) }
        ensures walk { OnOk result (self.new.walk ≡ walk_of K.number_of
            (put_pair K.number_of self.old.walk self.old.capacity key value) capacity) }
        ensures capacity { OnOk result (self.new.capacity ≡ capacity) }
        ensures placed { OnOk result (placed.new ≡ placed.old + (length self.old.walk + 1)) }
        ensures err { OnErr result (self.new ≡ self.old) }
        ensures none_placed { OnErr result (placed.new ≡ placed.old) }
        ensures value_returned { IfErr result (λ returned. returned ≡ value) }
        ensures known { OnOk result (K.is_valid key) }
    {
        let target = index_of(&key, capacity);
        let pair = (Stored::new(key.copied()), value);
        let pushed = self
            .slots
            .grow_and_push(capacity, slot, target, pair, placed);
        let place = match pushed {
            Ok(place) => place,
            Err((_, value)) => return Err(value),
        };
        Ok(Location {
            key: key.key(),
            slot: target,
            place,
        })
    }

    /// Moves all pairs, in the order of the walk, to their slots among `capacity` slots. If the
    /// table has that many already, no pair moves. It also makes room for `additional` more pairs
    /// that share a slot. If an allocation fails, nothing changes.
    pub fn grow_to(&mut self, capacity: usize, additional: usize) -> Result<(), AllocError>
        requires capacity { IsCapacity capacity }
        requires larger { self.old.capacity ≤ capacity }
        requires count { length self.old.walk < 2 ^ 64 }
        ensures walk { OnOk result
            (self.new.walk ≡ walk_of K.number_of self.old.walk capacity) }
        ensures capacity { OnOk result (self.new.capacity ≡ capacity) }
        ensures room { OnOk result (length self.new.walk + additional
            ≤ load_of K.number_of self.new.walk self.new.capacity + self.new.nodes) }
        ensures err { OnErr result (self.new ≡ self.old) }
        ensures kept { self.old.capacity ≡ capacity → self.old.nodes ≤ self.new.nodes }
        ensures free { self.old.capacity ≡ capacity → additional ≡ 0 → IsOk result }
    {
        if capacity == self.slots.len() {
            return self.slots.reserve(additional);
        }
        self.slots.grow(capacity, additional, &mut Steps::new())
    }
}

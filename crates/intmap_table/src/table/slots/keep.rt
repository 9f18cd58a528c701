//! Pairs of a slot are kept or removed, as the bits of a word say.
ghost use Rattle.std.specs.Prelude.{◌≡◌, ◌<◌, ◌≤◌, length, set};
ghost use Rattle.intmap_table.specs.Tables.Keeping.{Keeps};
ghost use Rattle.intmap_table.specs.Tables.Rows.{row_at, IsTable};

use crate::key::IntKey;
use crate::linked::keep::{self, KeepBits};
use crate::table::slots::Slots;
use crate::table::slots::pairs::unmark_if;
use std::alloc::Allocator;

impl<K: IntKey, X: Drop, A: Allocator> Slots<K, X, A> {
    /// Keeps or removes pairs of a slot, from the place on, each as its bit says, in their order.
    /// The place moves behind those that stay. It goes on until no bit or no pair is left. `index`
    /// may be past the last slot.
    #[inline(always)]
    pub(crate) fn keep_at(&mut self, index: usize, place: &mut usize, bits: &mut KeepBits)
        ensures rows { self.new.rows ≡ set self.old.rows index (row_at self.new index) }
        ensures pairs { Keeps bits.old (row_at self.old index) place.old bits.new
            (row_at self.new index) place.new }
        ensures ends { 0 < bits.new.left → length (row_at self.new index) ≤ place.new }
        ensures table { IsTable K.number_of self.new.rows }
        ensures total { self.new.total ≡ self.old.total }
    {
        if index > self.mask {
            return;
        }
        let slot = &mut self.slots[index];
        keep::keep(slot, &mut self.pool, place, bits);
        unmark_if(&mut self.bits, slot.is_empty(), index);
    }
}
